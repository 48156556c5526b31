//! The variable that an override's key names.
ghost use Rattle.std.specs.Prelude.{◌≡◌, is_some};
ghost use Rattle.std.specs.List.{prefix_len};
ghost use Rattle.profile_text.specs.Kind.{is_name, is_name_byte, word_of, op_of};
ghost use Rattle.route_http.specs.Key.{is_variable, variable_of};

/// What follows `profile:`.
#[tactic(auto, using(std::proofs::lemmas::List::drop_all))]
pub(crate) fn variable_of(name: &[u8]) -> &[u8]
    ensures exact { result.now ≡ variable_of name.now }
{
    if name.len() < 8 {
        return &[];
    }
    let (_, variable) = name.split_at(8);
    variable
}

/// Whether a text is a name of the profile language, and none of its words.
pub(crate) fn is_variable(text: &[u8]) -> bool
    ensures exact { result ≡ is_variable text.now }
{
    is_name(text) && !is_word(text) && !is_operator(text)
}

/// Whether a text is a letter or `_` followed by letters, digits and `_`.
fn is_name(text: &[u8]) -> bool
    ensures exact { result ≡ is_name text.now }
{
    match text {
        [] => false,
        [first, ..] => !first.is_ascii_digit() && name_len(text) == text.len(),
    }
}

/// How many bytes of a name stand at the front.
fn name_len(text: &[u8]) -> usize
    ensures exact { result ≡ prefix_len is_name_byte text.now }
{
    for (i, byte) in text.iter().enumerate() {
        if !is_name_byte(*byte) {
            return i;
        }
    }
    text.len()
}

/// Whether a byte is a letter, a digit or `_`.
fn is_name_byte(byte: u8) -> bool
    ensures exact { result ≡ is_name_byte byte }
{
    byte.is_ascii_alphanumeric() || byte == b'_'
}

/// Whether a text is a word of the language, but for the operators of two operands.
#[tactic(auto, unfolding(profile_text::specs::Kind::word_of))]
fn is_word(text: &[u8]) -> bool
    ensures exact { result ≡ is_some (word_of text.now) }
{
    text == b"(".as_slice()
        || text == b")".as_slice()
        || text == b"assign".as_slice()
        || text == b"=".as_slice()
        || text == b"then".as_slice()
        || text == b"else".as_slice()
        || text == b"true".as_slice()
        || text == b"false".as_slice()
        || text == b"not".as_slice()
        || text == b"switch".as_slice()
        || text == b"if".as_slice()
}

/// Whether a text is an operator of two operands.
#[tactic(auto, unfolding(profile_text::specs::Kind::op_of))]
fn is_operator(text: &[u8]) -> bool
    ensures exact { result ≡ is_some (op_of text.now) }
{
    text == b"or".as_slice()
        || text == b"and".as_slice()
        || text == b"xor".as_slice()
        || text == b"multiply".as_slice()
        || text == b"divide".as_slice()
        || text == b"add".as_slice()
        || text == b"sub".as_slice()
        || text == b"max".as_slice()
        || text == b"min".as_slice()
        || text == b"equal".as_slice()
        || text == b"greater".as_slice()
        || text == b"lesser".as_slice()
}
