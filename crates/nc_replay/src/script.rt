//! How a text is cut into lines, and where the lines of a script begin.
//!
//! Nothing is copied. What a line says is read by `nc_script`; above stands the replay.
ghost use Rattle.std.specs.Prelude.{◌≡◌, ◌↔◌, ◌∷◌, ◌<◌, ◌≤◌, ◌==◌, length, position, IsTrue, IfSome, IfNone};
ghost use Rattle.std.specs.List.{position_or_len, before_first, after_first};
ghost use Rattle.nc_replay.specs.Input.{longest_input};
ghost use Rattle.nc_replay.specs.Script.{lines_of, HasRule, LacksRule};
ghost use Rattle.nc_replay.specs.Plan.{HasParts};

/// The line that ends a script's configuration.
const RULE: &[u8] = b"---";

/// The place of the first such byte.
fn place_of(text: &[u8], byte: u8) -> Option<usize>
    ensures place { result ≡ position (λ b. b == byte) text.now }
    ensures within { IfSome result (λ at. at < length text.now) }
{
    text.iter().position(|b| *b == byte)
}

/// How many bytes the first line of a text has.
fn first_line_len(text: &[u8]) -> usize
    ensures len { result ≡ position_or_len (λ b. b == 10) text.now }
    ensures within { result ≤ length text.now }
{
    place_of(text, b'\n').unwrap_or(text.len())
}

/// The first line of a text, without its LF.
pub fn first_line(text: &[u8]) -> &[u8]
    ensures line { result.now ≡ before_first (λ b. b == 10) text.now }
    ensures lines { 0 < length text.now → lines_of text.now ≡ result.now ∷ lines_of (after_first (λ b. b == 10) text.now) }
{
    &text[..first_line_len(text)]
}

/// What stands behind the first line of a text and its LF.
pub fn rest_after(text: &[u8]) -> &[u8]
    ensures rest { result.now ≡ after_first (λ b. b == 10) text.now }
    ensures lines { 0 < length text.now → lines_of text.now ≡ before_first (λ b. b == 10) text.now ∷ lines_of result.now }
    ensures shorter { 0 < length text.now → length result.now < length text.now }
{
    let len = first_line_len(text);
    &text[(len + 1).min(text.len())..]
}

/// Whether the first line of a text is the one that ends a configuration.
fn has_rule(text: &[u8]) -> bool
    ensures { IsTrue result ↔ HasRule text.now }
{
    text.len() > 0 && first_line(text) == RULE
}

/// The parts of a script.
#[derive(Clone, Copy)]
pub struct Parts<'t> {
    /// The text of its configuration.
    pub config: &'t [u8],
    /// The lines that are made.
    pub lines: &'t [u8],
    /// How many lines stand before those.
    pub before: u64,
}

/// The parts of a script; None where no line of it is `---`.
pub fn parts_of(script: &[u8]) -> Option<Parts<'_>>
    requires { length script.now ≤ longest_input }
    ensures parts { IfSome result (λ parts. HasParts script.now parts.config.now parts.lines.now parts.before) }
    ensures within { IfSome result (λ parts. length parts.lines.now ≤ length script.now) }
    ensures few { IfSome result (λ parts. parts.before ≤ length script.now) }
    ensures none { IfNone result (LacksRule script.now) }
{
    let mut rest = script;
    let mut before = 0;
    while rest.len() > 0 {
        if has_rule(rest) {
            return Some(Parts {
                config: &script[..script.len() - rest.len()],
                lines: rest_after(rest),
                before: before + 1,
            });
        }
        rest = rest_after(rest);
        before += 1;
    }
    None
}
