//! Assertions of the kit that hold exactly where those of nodes do.

ghost use Rattle.std.specs.Prelude.{◌≡◌, if◌then◌else◌, IfSome};
ghost use Rattle.regex_hir.specs.declared.look.Look.TheVariants.{EndCrlf, EndLf, StartCrlf, StartLf};
ghost use Rattle.fancy_expr.specs.Views.{assertion_of};
ghost use Rattle.fancy_agreement.specs.First.{IsSameLook};

use fancy_expr::expr::Assertion;
use regex_hir::Look;

/// The kit's assertion, if it has the same.
pub(crate) fn look_of(assertion: Assertion, unicode: bool) -> Option<Look>
    ensures { IfSome result (IsSameLook unicode (assertion_of assertion)) }
{
    match assertion {
        Assertion::StartText => Some(Look::Start),
        Assertion::EndText => Some(Look::End),
        Assertion::StartLine { crlf } => Some(start_of_line(crlf)),
        Assertion::EndLine { crlf } => Some(end_of_line(crlf)),
        Assertion::WordBoundary if unicode => Some(Look::WordUnicode),
        Assertion::LeftWordBoundary if unicode => Some(Look::WordStartUnicode),
        Assertion::RightWordBoundary if unicode => Some(Look::WordEndUnicode),
        _ => None,
    }
}

fn start_of_line(crlf: bool) -> Look
    ensures { result ≡ if crlf then StartCrlf else StartLf }
{
    if crlf { Look::StartCrlf } else { Look::StartLf }
}

fn end_of_line(crlf: bool) -> Look
    ensures { result ≡ if crlf then EndCrlf else EndLf }
{
    if crlf { Look::EndCrlf } else { Look::EndLf }
}
