//! Reading a profile.

use crate::error::TextError;
use crate::profile::Profile;
use crate::read_part::read_part;
use crate::source::Reader;
use item_list::Items;
use std::alloc::Global;

impl Profile {
    ghost use Rattle.std.specs.Prelude.{◌≡◌, ◌⊎◌, ◌<◌, ◌^◌, IfOk, IfErr, MatchResult, length};
    ghost use Rattle.item_list.specs.Answer.{Answers};
    ghost use Rattle.profile_text.specs.declared.error.TextError.TheVariants.{NoMemory};
    ghost use Rattle.profile_text.specs.Expr.{sections_in};
    ghost use Rattle.profile_text.specs.Fault.{IsFirstFault};
    ghost use Rattle.profile_text.specs.Grammar.{Spells};
    ghost use Rattle.profile_text.specs.Read.{profile_of};
    ghost use Rattle.profile_text.specs.Tree.{Sections};

    /// The profile of a text of fewer than 2^32 bytes, or the refusal of the first token that can't
    /// stand where it is.
    pub fn read(alloc: Global, text: &[u8]) -> Result<Profile, TextError>
        requires fits { length text.now < 2 ^ 32 }
        ensures exact { Answers sections_in (profile_of text.now) NoMemory result }
        ensures found { IfOk result (λ p. Spells text.now (sections_in p)) }
        ensures cause { IfErr result (λ e. (e ≡ NoMemory) ⊎ IsFirstFault text.now e) }
        ensures only { (p : Sections) → Spells text.now p
            → MatchResult result (λ r. sections_in r ≡ p) (λ e. e ≡ NoMemory) }
    {
        let mut profile = Profile {
            global: Items::new(alloc),
            way: Items::new(alloc),
            node: Items::new(alloc),
        };
        let mut current = None;
        let mut reader = Reader::new(text);
        'parts: while let Some(found) = reader.next() {
            let (token, after) = found;
            reader = after;
            let section = read_part(alloc, &mut profile, current, token, &mut reader)?;
            current = Some(section);
        }
        Ok(profile)
    }
}
