//! The form of a reply.

/// The form of a reply.
#[derive(Clone, Copy)]
pub enum Form {
    GeoJson,
    Csv,
}
