//! Text in XML.

ghost use Rattle.std.specs.Prelude.{◌≡◌, ◌++◌, OnOk, chars, encode_utf8_all, string_bytes};
ghost use Rattle.fancy_railroad.specs.Xml.{escaped, escaped_char};

use std::alloc::AllocError;

/// Writes the text so that no character of it means anything to XML: `&`, `<`, `>` and `"` by their names, and a middle
/// dot for each control character and for U+FFFE and U+FFFF, which XML does not have.
pub fn push_escaped(out: &mut String, text: &str) -> Result<(), AllocError>
    ensures { OnOk result (string_bytes out.new
        ≡ string_bytes out.old ++ encode_utf8_all (escaped (chars text.now))) }
{
    for c in text.chars() {
        push_char(out, c)?;
    }
    Ok(())
}

fn push_char(out: &mut String, c: char) -> Result<(), AllocError>
    ensures { OnOk result (string_bytes out.new
        ≡ string_bytes out.old ++ encode_utf8_all (escaped_char c)) }
{
    match c {
        '<' => out.push_str("&lt;"),
        '>' => out.push_str("&gt;"),
        '&' => out.push_str("&amp;"),
        '"' => out.push_str("&quot;"),
        '\0'..='\u{1f}' | '\u{7f}'..='\u{9f}' | '\u{fffe}' | '\u{ffff}' => out.push('·'),
        _ => out.push(c),
    }
}
