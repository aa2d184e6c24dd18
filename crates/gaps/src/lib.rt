// What stands between elements: blanks, line ends and both comments.
#![tactic(auto)]

ghost use Rattle.std.specs.Prelude.{◌≡◌, Bool, true, false, ◌+◌, ◌<◌, ◌≤◌, IfOk, IfSome, length, drop, get_or};
ghost use Rattle.gaps.specs.Gaps.{gap, in_line, in_block};
ghost use Rattle.gaps.specs.Machinery.Comments.{behind, resumed};

use answers::faults::Fault;
use text::Codes;

// Where a gap or a comment ends, and whether a line end lies in it.
#[derive(Clone, Copy)]
pub struct Gap {
    pub end: usize,
    pub newline: bool,
}

// The `//` that starts at `slash`: it ends before its line end.
fn line_comment(codes: &Codes, text: &[u8], slash: usize) -> Result<Gap, Fault>
    requires { slash + 1 < length text.now }
    ensures resumes { (newline : Bool) → in_line (slash + 2) newline (drop (slash + 2) text.now) ≡ behind text.now newline result }
    ensures goes_on { IfOk result (λ comment. slash + 2 ≤ comment.end) }
{
    let end = runs::run_end(codes, text, slash + 2, text::LINE_END);
    if end < text.len() && codes.of(text[end]) == text::ILLEGAL {
        return Err(Fault::Stray(end));
    }
    Ok(Gap {
        end,
        newline: false,
    })
}

// The `/*` that starts at `slash`.
fn block_comment(codes: &Codes, text: &[u8], slash: usize) -> Result<Gap, Fault>
    requires { slash + 1 < length text.now }
    ensures resumes { (newline : Bool) → in_block slash (slash + 2) newline false (drop (slash + 2) text.now) ≡ behind text.now newline result }
    ensures goes_on { IfOk result (λ comment. slash + 2 ≤ comment.end) }
{
    let mut lined = false;
    let mut i = slash + 2;
    // The place goes by whole runs, so that no iterator over bytes gives it.
    while i < text.len() {
        i = runs::run_end(codes, text, i, text::TURNING);
        if text.len() <= i {
            break;
        }
        let b = text[i];
        let code = codes.of(b);
        if code == text::ILLEGAL {
            return Err(Fault::Stray(i));
        }
        if b == b'*' && i + 1 < text.len() && text[i + 1] == b'/' {
            return Ok(Gap {
                end: i + 2,
                newline: lined,
            });
        }
        lined = lined || code == text::LINE_END;
        i += 1;
    }
    Err(Fault::OpenComment(slash))
}

// The comment at a slash, if one starts there.
fn comment_at(codes: &Codes, text: &[u8], slash: usize) -> Result<Option<Gap>, Fault>
    requires { (slash < length text.now) × (get_or text.now slash 0 ≡ 47) }
    ensures resumes { (newline : Bool) → gap slash newline (drop slash text.now) ≡ resumed text.now slash newline result }
    ensures goes_on { IfOk result (λ found. IfSome found (λ comment. slash + 1 ≤ comment.end)) }
{
    if slash + 1 == text.len() {
        return Ok(None);
    }
    match text[slash + 1] {
        b'/' => Ok(Some(line_comment(codes, text, slash)?)),
        b'*' => Ok(Some(block_comment(codes, text, slash)?)),
        _ => Ok(None),
    }
}

// The gap from a place on. A blank, and what is over `/`, is told before the table: these are met most.
pub fn gap_from(codes: &Codes, text: &[u8], from: usize) -> Result<Gap, Fault>
    ensures { result ≡ gap from false (drop from text.now) }
{
    let mut newline = false;
    let mut i = from;
    // The place goes by whole comments, so that no iterator over bytes gives it.
    while i < text.len() {
        let b = text[i];
        if b == b' ' {
            i += 1;
            continue;
        }
        if b'/' < b {
            break;
        }
        let code = codes.of(b);
        if code == text::BLANK {
            i += 1;
            continue;
        }
        if code == text::LINE_END {
            newline = true;
            i += 1;
            continue;
        }
        if b != b'/' {
            break;
        }
        let Some(comment) = comment_at(codes, text, i)? else {
            break;
        };
        newline = newline || comment.newline;
        i = comment.end;
    }
    Ok(Gap { end: i, newline })
}
