//! How tokens look, by the names of their scopes.

use fancy_highlight::scopes::{Scope, Scopes};
use std::alloc::{AllocError, Global};

/// How a token looks: a class of the page, and a code of terminals. Both are empty if it looks as any text.
#[derive(Clone, Copy)]
pub struct Style {
    pub class: &'static str,
    pub code: &'static str,
}

const PLAIN: Style = Style {
    class: "",
    code: "",
};

/// The classes and the codes, each with the beginning of the names that have it. The first that fits is taken.
static STYLES: [(&str, &str, &str); 16] = [
    ("comment", "comment", "90"),
    ("string", "string", "32"),
    ("constant.character.escape", "escape", "36"),
    ("constant", "constant", "35"),
    ("keyword.operator", "operator", "37"),
    ("keyword", "keyword", "1;34"),
    ("storage", "keyword", "1;34"),
    ("entity.name.function", "function", "33"),
    ("entity.name.macro", "macro", "1;33"),
    ("entity.name.type", "type", "36"),
    ("entity.name.lifetime", "lifetime", "31"),
    ("support.type.property", "property", "34"),
    ("support", "type", "36"),
    ("variable.language", "keyword", "1;34"),
    ("meta.attribute", "attribute", "90"),
    ("invalid", "invalid", "41"),
];

/// The style of this scope.
pub fn style_at(styles: &[Style], scope: usize) -> Style {
    styles.get(scope).copied().unwrap_or(PLAIN)
}

/// The style of a scope: that of its own name, or else that of the scope around it.
fn style_of(scopes: &Scopes, styles: &[Style], scope: Scope) -> Style {
    let name = scopes.name(scope.name).unwrap_or("");
    for (beginning, class, code) in &STYLES {
        if name.starts_with(beginning) {
            return Style { class, code };
        }
    }
    match scope.outer {
        Some(outer) => style_at(styles, outer),
        None => PLAIN,
    }
}

/// The style of each scope, by its number.
pub fn styles_of(alloc: Global, scopes: &Scopes) -> Result<Vec<Style>, AllocError> {
    let mut styles = Vec::new(alloc);
    for scope in scopes.as_slice() {
        let style = style_of(scopes, &styles, *scope);
        styles.push(style)?;
    }
    Ok(styles)
}
