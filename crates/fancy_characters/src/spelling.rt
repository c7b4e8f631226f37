//! The characters that bytes spell, one after the other; bytes that are no text spell some numbers too.

ghost use Rattle.std.specs.Prelude.{◌≡◌, ◌<◌, ◌≤◌, [], ◌∷◌, drop, length, IfSome, IfNone};
ghost use Rattle.std.specs.Char as char;
ghost use Rattle.std.specs.Str.{chars, continuation_len, lead_bits};

/// How many bytes a character takes in UTF-8.
pub fn len_utf8(c: u32) -> usize
    ensures { result ≡ char.len_utf8 c }
{
    if c < 0x80 {
        1
    } else if c < 0x800 {
        2
    } else if c < 0x1_0000 {
        3
    } else {
        4
    }
}

/// The number that the bytes from `at` on spell first, and where its bytes end.
pub(crate) fn spelled_at(bytes: &[u8], at: usize) -> Option<(u32, usize)>
    ensures some { IfSome result
        (λ r. chars (drop at bytes.now) ≡ r.0 ∷ chars (drop r.1 bytes.now)) }
    ensures forward { IfSome result (λ r. at < r.1) }
    ensures within { IfSome result (λ r. r.1 ≤ length bytes.now) }
    ensures none { IfNone result (chars (drop at bytes.now) ≡ []) }
{
    if at >= bytes.len() {
        return None;
    }
    let mut left = following(bytes[at]);
    let mut code = bits(bytes[at]);
    let mut next = at + 1;
    'spell: while left > 0 {
        if next >= bytes.len() {
            return None;
        }
        code = code * 64 + (bytes[next] as u32).saturating_sub(128);
        next += 1;
        left -= 1;
    }
    Some((code, next))
}

/// How many bytes follow the first one of a character.
fn following(lead: u8) -> u32
    ensures value { result ≡ continuation_len lead }
    ensures most { result ≤ 3 }
{
    if lead < 128 {
        0
    } else if lead < 224 {
        1
    } else if lead < 240 {
        2
    } else {
        3
    }
}

/// What the first byte of a character holds of its code.
fn bits(lead: u8) -> u32
    ensures value { result ≡ lead_bits lead }
    ensures most { result < 128 }
{
    let lead = lead as u32;
    if lead < 128 {
        lead
    } else if lead < 224 {
        lead.saturating_sub(192)
    } else if lead < 240 {
        lead - 224
    } else {
        lead - 240
    }
}
