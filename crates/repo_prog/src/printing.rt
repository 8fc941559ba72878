//! Texts of others, as they are printed.
ghost use Rattle.std.specs.Prelude.{◌≡◌, ◌++◌, OnOk, IfOk, string_bytes};
ghost use Rattle.repo_prog.specs.Printing.{is_from, is_control, is_separator, turns_direction, is_hidden, printed_char, printed};

use std::alloc::{AllocError, Global};

fn is_from(least: char, greatest: char, c: char) -> bool
    ensures { result ≡ is_from least greatest c }
{
    least <= c && c <= greatest
}

/// Whether it is a control character.
fn is_control(c: char) -> bool
    ensures { result ≡ is_control c }
{
    is_from('\0', '\u{1f}', c) || is_from('\u{7f}', '\u{9f}', c)
}

/// Whether it ends a line or a paragraph.
fn is_separator(c: char) -> bool
    ensures { result ≡ is_separator c }
{
    is_from('\u{2028}', '\u{2029}', c)
}

/// Whether it turns the direction of writing: one of Unicode's `Bidi_Control` characters.
fn turns_direction(c: char) -> bool
    ensures { result ≡ turns_direction c }
{
    is_from('\u{61c}', '\u{61c}', c)
        || is_from('\u{200e}', '\u{200f}', c)
        || is_from('\u{202a}', '\u{202e}', c)
        || is_from('\u{2066}', '\u{2069}', c)
}

/// Whether a character isn't printed as it is.
fn is_hidden(c: char) -> bool
    ensures { result ≡ is_hidden c }
{
    is_control(c) || is_separator(c) || turns_direction(c)
}

/// Adds a character as it is printed.
fn push_printed(shown: &mut String, c: char) -> Result<(), AllocError>
    ensures { OnOk result (string_bytes shown.new ≡ string_bytes shown.old ++ printed_char c) }
{
    if !is_hidden(c) {
        return shown.push(c);
    }
    let (alloc, code) = (*shown.allocator(), c as u32);
    let code = format!(in alloc; "\\u{{{code:x}}}")?;
    shown.push_str(code.as_str())
}

/// A text of others as it is printed: each control character, each end of a line or a paragraph, and each that turns the
/// direction of writing, by its code, as `\u{a}`. So it stays on its line, and moves nothing on a terminal. All others
/// stay as they are.
pub fn printed(alloc: Global, text: &str) -> Result<String, AllocError>
    ensures { IfOk result (λ shown. string_bytes shown ≡ printed text.now) }
{
    let mut shown = String::new(alloc);
    for c in text.chars() {
        push_printed(&mut shown, c)?;
    }
    Ok(shown)
}
