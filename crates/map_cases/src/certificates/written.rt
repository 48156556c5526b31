//! Certificates as words.

use crate::track::legs::numbers;
use certificate_text::{Certificate, Entry, LowerBound, Proof};
use std::alloc::{AllocError, Global};

/// The certificate of a word by a lower bound: its legs, parted by `;`.
pub(crate) fn certificate_of(
    alloc: Global,
    bound: LowerBound,
    word: &str,
) -> Result<Certificate, AllocError> {
    let mut legs = Vec::new(alloc);
    if !word.is_empty() {
        for part in word.split(';') {
            legs.push(proof_of(alloc, part)?)?;
        }
    }
    Ok(Certificate { bound, legs })
}

/// The leg of a word: its links, its cost behind `=`, and its labels, each behind `|`.
fn proof_of(alloc: Global, word: &str) -> Result<Proof, AllocError> {
    let (front, labels) = word.split_once('|').unwrap_or((word, ""));
    let (links, cost) = front.split_once('=').unwrap_or((front, ""));
    let walk = numbers(alloc, links)?;
    let mut entries = Vec::new(alloc);
    if !labels.is_empty() {
        for label in labels.split('|') {
            entries.push(entry_of(label))?;
        }
    }
    Ok(Proof {
        entries,
        cost: cost.parse::<u128>().unwrap_or(u128::MAX),
        walk: walk.into_vec(),
    })
}

/// The label of a word: link, cost, and the buffers of descending and climbing.
fn entry_of(word: &str) -> Entry {
    let (link, rest) = word.split_once(',').unwrap_or((word, ""));
    let (cost, rest) = rest.split_once(',').unwrap_or((rest, ""));
    let (down, up) = rest.split_once(',').unwrap_or((rest, ""));
    Entry {
        cost: cost.parse::<u128>().unwrap_or(u128::MAX),
        down: down.parse::<i64>().unwrap_or(i64::MIN),
        up: up.parse::<i64>().unwrap_or(i64::MIN),
        link: link.parse::<u32>().unwrap_or(u32::MAX),
    }
}

/// Writes a certificate as such a word, and a space.
pub(crate) fn tell_certificate(
    line: &mut String,
    certificate: &Certificate,
) -> Result<(), AllocError> {
    'legs: for place in 0..certificate.legs.len() {
        if place > 0 {
            write!(line, ";")?;
        }
        tell_proof(line, &certificate.legs[place])?;
    }
    write!(line, " ")?;
    Ok(())
}

/// Writes a leg.
fn tell_proof(line: &mut String, proof: &Proof) -> Result<(), AllocError> {
    'links: for place in 0..proof.walk.len() {
        if place > 0 {
            write!(line, ",")?;
        }
        let link = proof.walk[place];
        write!(line, "{link}")?;
    }
    let cost = proof.cost;
    write!(line, "={cost}")?;
    'labels: for place in 0..proof.entries.len() {
        let Entry {
            cost,
            down,
            up,
            link,
        } = proof.entries[place];
        write!(line, "|{link},{cost},{down},{up}")?;
    }
    Ok(())
}
