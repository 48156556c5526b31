//! Certificates read from their texts.

ghost use Rattle.std.specs.Prelude.{IfOk, ◌≡◌, ◌+◌, ◌∷◌, ◌++◌, ◌<◌, ◌^◌, [], List, length, MatchResult};
ghost use Rattle.certificate_text.specs.Lines.{Head, lines_of};
ghost use Rattle.certificate_text.specs.Texts.{AreLegs, AreShort, CertificateValue, IsSame, ReadsText, certificate_text, legs_of};

use crate::certificate::{Certificate, LowerBound};
use crate::draft::Draft;
use crate::error::CertError;
use crate::line::head;
use overpass_graph::Map;
use std::alloc::Global;

/// The certificate that a text is of, or its first line at fault.
pub fn read(alloc: Global, text: &[u8], map: &Map) -> Result<Certificate, CertError>
    requires fits { length text.now < 2 ^ 32 }
    ensures exact { ReadsText map.now text.now result }
    ensures few { IfOk result (λ certificate. AreShort (legs_of certificate)) }
    // What was written of a certificate is read as the same one.
    ensures reread { (value : CertificateValue) → AreLegs map.now value.legs →
        text.now ≡ certificate_text map.now value → IsSame value result }
{
    let _count = map.links();
    match head(text) {
        Some(found) => {
            let (bound, rest) = found;
            read_lines(alloc, bound, rest, map)
        }
        None => Err(CertError::Line { line: 1 }),
    }
}

/// The certificate whose first line stands before a text, and says this lower bound.
fn read_lines(
    alloc: Global,
    bound: LowerBound,
    text: &[u8],
    map: &Map,
) -> Result<Certificate, CertError>
    requires fits { length text.now + 2 < 2 ^ 32 }
    ensures exact { ReadsText map.now (lines_of map.now (Head bound ∷ []) ++ text.now) result }
{
    let _count = map.links();
    let mut draft = Draft::new(alloc);
    let mut rest = text;
    let mut number = 2u32;
    'lines: while !rest.is_empty() {
        let Some(after) = draft.take_line(alloc, map, rest)? else {
            return Err(CertError::Line { line: number });
        };
        rest = after;
        number += 1;
    }
    if draft.is_ended() {
        Ok(draft.certificate(bound))
    } else {
        Err(CertError::Line { line: number })
    }
}
