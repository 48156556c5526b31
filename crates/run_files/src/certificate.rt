//! The stage of a certificate.

ghost use Rattle.std.specs.Prelude.{◌<◌, ◌≤◌, ◌^◌, IfOk, length};
ghost use Rattle.route_certificate.specs.Verdicts.{AreShort};
ghost use Rattle.run_files.specs.Certificate.{IsCertificateIn, NotesCertificate, TakesCertificate};
ghost use Rattle.run_files.specs.Notes.{inputs};

use crate::file::take_file;
use crate::note_lines::note_file;
use crate::notes::Notes;
use crate::status::Status;
use certificate_text::{CertError, Certificate, read};
use command_words::FileWord;
use edge_io::{Files, Sink};
use overpass_graph::Map;
use std::alloc::Global;

/// The most bytes of a certificate's file.
const MOST_CERTIFICATE: usize = 1_073_741_824;

/// The certificate of a file that a word names, of links of a map, which is noted; a refusal names
/// the word.
pub fn take_certificate<F: Files, N: Sink>(
    alloc: Global,
    file: &FileWord,
    map: &Map,
    files: &mut F,
    notes: &mut Notes<N>,
) -> Result<Certificate, Status>
    ensures taken { NotesCertificate map.now file.now (inputs (F.seen files.old) notes.old)
        (inputs (F.seen files.new) notes.new) result }
    ensures fits { IfOk result AreShort }
{
    match certificate_of(alloc, file, map, files) {
        Ok(certificate) => {
            note_file(alloc, file, b"certificate", notes);
            Ok(certificate)
        }
        Err(status) => Err(status),
    }
}

/// The certificate of a file that a word names, of links of a map; a refusal names the word.
fn certificate_of<F: Files>(
    alloc: Global,
    file: &FileWord,
    map: &Map,
    files: &mut F,
) -> Result<Certificate, Status>
    ensures taken { TakesCertificate map.now file.now (F.seen files.old) (F.seen files.new)
        result }
    ensures fits { IfOk result AreShort }
{
    match take_file(alloc, files, file, MOST_CERTIFICATE) {
        Ok(text) => certificate_in(alloc, file.word(), map, text.as_slice()),
        Err(status) => Err(status),
    }
}

/// The certificate of a text; a refusal names the word.
fn certificate_in(alloc: Global, word: u64, map: &Map, text: &[u8]) -> Result<Certificate, Status>
    requires fits { length text.now < 2 ^ 32 }
    ensures exact { IsCertificateIn map.now word text.now result }
    ensures fits { IfOk result AreShort }
{
    match read(alloc, text, map) {
        Ok(certificate) => Ok(certificate),
        Err(CertError::NoMemory) => Err(Status::NoMemory),
        Err(CertError::Line { line }) => Err(Status::Certificate {
            word,
            error: CertError::Line { line },
        }),
    }
}
