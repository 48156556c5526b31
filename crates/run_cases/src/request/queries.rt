//! Cases on queries.

use case_inputs::Case;
use context_check::Overrides;
use geo_int::Spot;
use item_list::{append_bytes, append_named, append_signed};
use nogo_areas::Circle;
use route_http::{Form, Request, request};
use std::alloc::{AllocError, Global};

/// The answer to a case: what the query asks for, or the line of its refusal.
pub(crate) fn answer(alloc: Global, case: &Case) -> Result<Vec<u8>, AllocError> {
    match request(alloc, case.word(1)) {
        Ok(asked) => shown(alloc, &asked),
        Err(error) => error.line(alloc),
    }
}

/// What a request asks for, in one line.
fn shown(alloc: Global, asked: &Request) -> Result<Vec<u8>, AllocError> {
    let mut out = Vec::new(alloc);
    append_asked(&mut out, asked)?;
    Ok(out)
}

/// Appends what a request asks for.
fn append_asked(out: &mut Vec<u8>, asked: &Request) -> Result<(), AllocError> {
    'spots: for spot in asked.waypoints.as_slice() {
        append_spot(out, *spot)?;
        append_bytes(out, b" ")?;
    }
    append_bytes(out, b"not")?;
    'circles: for circle in asked.circles.as_slice() {
        append_circle(out, circle)?;
    }
    append_bytes(out, b" by ")?;
    append_bytes(out, asked.profile.as_slice())?;
    append_named(out, b" ", u64::from(asked.alternative))?;
    append_named(out, form_word(asked.form), asked.labels)?;
    append_overrides(out, &asked.overrides)?;
    append_bytes(out, if asked.runs { b" runs" } else { b"" })
}

/// A spot by its longitude and latitude in microdegrees.
fn append_spot(out: &mut Vec<u8>, spot: Spot) -> Result<(), AllocError> {
    append_signed(out, spot.lon())?;
    append_bytes(out, b",")?;
    append_signed(out, spot.lat())
}

/// A circle by its centre and its radius in millimetres.
fn append_circle(out: &mut Vec<u8>, circle: &Circle) -> Result<(), AllocError> {
    append_bytes(out, b" ")?;
    append_spot(out, circle.centre)?;
    append_named(out, b",", circle.radius)
}

/// The word of a form.
fn form_word(form: Form) -> &'static [u8] {
    match form {
        Form::GeoJson => b" geojson ",
        Form::Csv => b" csv ",
    }
}

/// Overrides by their names and millionths.
fn append_overrides(out: &mut Vec<u8>, overrides: &Overrides) -> Result<(), AllocError> {
    'overrides: for item in overrides.as_slice() {
        append_bytes(out, b" ")?;
        append_bytes(out, item.0.as_slice())?;
        append_bytes(out, b"=")?;
        append_signed(out, item.1.millionths())?;
    }
    Ok(())
}
