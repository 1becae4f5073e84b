// The datatypes of any bytes. No value is empty; none but data holds byte 1.
ghost use Rattle.std.specs.Prelude.{◌≡◌};
ghost use Rattle.forms.specs.Form.{accepts};
ghost use Rattle.forms.specs.Types.{string, char, boolean, blob, words};

// 1 String: any
#[tactic(auto, using(crate::proofs::Texts::string_at))]
pub fn is_string(s: &[u8]) -> bool
    ensures { result ≡ accepts string s.now }
{
    !s.is_empty() && !s.contains(&1)
}

// 2 char: one byte
#[tactic(auto, using(crate::proofs::Texts::char_is))]
pub fn is_char(s: &[u8]) -> bool
    ensures { result ≡ accepts char s.now }
{
    matches!(s, [b] if *b != 1)
}

// 3 Boolean: Y or N
#[tactic(auto, using(crate::proofs::Texts::boolean_is))]
pub fn is_boolean(s: &[u8]) -> bool
    ensures { result ≡ accepts boolean s.now }
{
    matches!(s, [b'Y' | b'N'])
}

// 10 data: any bytes
#[tactic(auto, using(crate::proofs::Texts::blob_is))]
pub fn is_data(s: &[u8]) -> bool
    ensures { result ≡ accepts blob s.now }
{
    !s.is_empty()
}

// 16 MultipleStringValue: non-empty words parted by single spaces
// kept: a flag, since a word that is found first and asked for byte 1 then is looked at to its end, where this stops at that byte.
pub fn is_words(s: &[u8]) -> bool
    ensures { result ≡ accepts words s.now }
{
    let mut gap = true;
    for b in s {
        let is_space = *b == b' ';
        if (*b == 1) | (gap & is_space) {
            return false;
        }
        gap = is_space;
    }
    !gap
}
