//! Texts that are names.

ghost use Rattle.std.specs.Prelude.{IfSome, IfNone};
ghost use Rattle.repo_json.specs.JsonNames.{IsId, NamesNothing};

use repo_name::Name;

/// The name of which this is the text: 64 digits in lower case. It takes no memory.
pub fn hex_name(text: &str) -> Option<Name>
    ensures found { IfSome result (IsId text.now) }
    ensures none { IfNone result (NamesNothing text.now) }
{
    let Ok(name) = Name::from_hex(text) else {
        return None;
    };
    Some(name)
}
