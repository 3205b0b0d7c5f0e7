//! The lines of a text, one after another.
ghost use Rattle.std.specs.Prelude.{◌≡◌, ◌<◌, ◌≤◌, ◌∷◌, IfSome, length, option_map};
ghost use Rattle.pool_config.specs.Bytes.{AllOf, behind, lines, lines_behind};
ghost use Rattle.pool_config.specs.declared.line.Class.TheVariants.{InLine};

/// What stands from the first line feed on.
fn behind_line(bytes: &[u8]) -> &[u8]
    ensures { result.now ≡ behind InLine bytes.now }
{
    let mut left = bytes;
    while let [first, rest @ ..] = left {
        if *first == b'\n' {
            return left;
        }
        left = rest;
    }
    left
}

/// The first line, and what stands behind its line feed.
pub(crate) fn cut_line(bytes: &[u8]) -> (&[u8], Option<&[u8]>)
    ensures lines { lines bytes.now
        ≡ result.0.now ∷ (lines_behind (option_map (λ rest. rest.now) result.1)) }
    ensures one { AllOf InLine result.0.now }
    ensures short { length result.0.now ≤ length bytes.now }
    ensures shorter { IfSome result.1 (λ rest. length rest.now < length bytes.now) }
{
    let rest = behind_line(bytes);
    let (line, _) = bytes.split_at(bytes.len() - rest.len());
    match rest {
        [_, next @ ..] => (line, Some(next)),
        [] => (line, None),
    }
}
