//! The input of `play`: a publication, a line that parts, and a script.
ghost use Rattle.std.specs.Prelude.{◌≡◌, ℕ, List};
ghost use Rattle.merge_script.specs.Input.{IsCut, is_bar, publication_of, script_of};

use crate::lines::{line_end, without_return};

// Whether a line parts the publication from the script.
fn is_bar(line: &[u8]) -> bool
    ensures { result ≡ is_bar line.now }
{
    without_return(line) == b"---".as_slice()
}

/// The publication and the script of an input. Without a line of three dashes all of it is the
/// publication.
pub fn cut_input(input: &[u8]) -> (&[u8], &[u8])
    ensures publication { result.0.now ≡ publication_of input.now }
    ensures script { result.1.now ≡ script_of input.now }
{
    let mut at = 0;
    while at < input.len() {
        let (front, rest) = input.split_at(at);
        let end = line_end(rest);
        let behind = (end + 1).min(rest.len());
        if is_bar(rest.split_at(end).0) {
            return (front, rest.split_at(behind).1);
        }
        at += behind;
    }
    (input, input.split_at(input.len()).1)
}

/// The publication, the line of three dashes and the script, in order, are the input. The publication
/// is whole lines, of which none is the bar; an input with no bar is all publication.
pub fn bar_cuts_its_input()
    ensures { (input : List ℕ) → IsCut input (publication_of input) (script_of input) }
{}
