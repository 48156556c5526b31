//! Which links a case closes.

ghost use Rattle.std.specs.Prelude.{◌≡◌};
ghost use Rattle.map_cases.specs.Signs.{is_unmarked};

use cost_model::OpenLinks;

/// One sign a link, of so many links: a link is closed where its sign is `x`.
#[derive(Drop)]
pub(crate) struct Signs<'a> {
    pub(crate) signs: &'a [u8],
    pub(crate) links: u32,
}

impl<'a> OpenLinks for Signs<'a> {
    ghost opens = { λ s. record { count = s.links; is_open = is_unmarked s.signs.now } };

    fn is_open(&self, link: u32) -> bool {
        is_unmarked(self.signs, link)
    }
}

/// Whether a link has no sign `x`.
fn is_unmarked(signs: &[u8], link: u32) -> bool
    ensures exact { result ≡ is_unmarked signs.now link }
{
    match signs.get(link as usize) {
        Some(sign) => *sign != b'x',
        None => true,
    }
}
