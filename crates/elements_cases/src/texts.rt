// What is printed of a text is one line: its elements as `kind,which,first,end,line`, or their bytes between backquotes,
// then `end` or `fault,number,place`, with a blank between.
// `as` from `u32` to `usize`: std has no `From` there, and the check proves that nothing is lost.
ghost use Rattle.std.specs.Prelude.{◌≡◌};
ghost use Rattle.elements.specs.Lexemes.{lexeme_of};

use elements::{Element, Stated};
use std::io;
use walk::Walk;
use writing::Writer;

// Room for a line. An element of a text of at most 256 bytes takes at most 15 bytes, or three more than its own, so every
// line has room.
const LINE: usize = 4096;

// The line of a text. `parts` says whether an element is shown as its part of the text: one closure for both: with two, the
// walk is called and not set into its callers, and a line takes a quarter more.
pub fn line(rt: &impl Print, text: &[u8], stated: Stated, parts: bool) -> io::Result<()> {
    walked(rt, text, stated, |out, e| {
        if parts {
            out.put_byte(b'`');
            out.put_bytes(part(text, e));
            out.put_bytes(b"` ");
        } else {
            element(out, e);
        }
    })
}

// A line is gathered and then written at once.
fn walked<F: Fn(&mut Writer<'_>, Element)>(
    rt: &impl Print,
    text: &[u8],
    stated: Stated,
    show: F,
) -> io::Result<()>
    requires { F.IsAlwaysCallable show }
{
    let mut line = [0u8; LINE];
    let mut out = Writer::new(&mut line);
    gather(&mut out, text, stated, show);
    let count = out.count();
    rt.write_all(line.get(..count).unwrap_or(&line))
}

// Shows each element of a text. An element holds a byte of its own, so the turns do not run out before the text does; a walk
// that does not come to an end differs from every stored answer.
fn gather<F: Fn(&mut Writer<'_>, Element)>(
    out: &mut Writer<'_>,
    text: &[u8],
    stated: Stated,
    show: F,
)
    requires { F.IsAlwaysCallable show }
{
    let mut walk = Walk::new(text);
    for _ in 0..=text.len() {
        match walk.next(stated) {
            Ok(Some(e)) => show(out, e),
            Ok(None) => return out.put_bytes(b"end\n"),
            Err(fault) => {
                out.put_bytes(b"fault,");
                out.put_number(fault.number() as usize, b',');
                return out.put_number(fault.place(), b'\n');
            }
        }
    }
    out.put_bytes(b"no end\n");
}

fn element(out: &mut Writer<'_>, e: Element) {
    let Element {
        kind,
        which,
        first,
        end,
        newline,
    } = e;
    out.put_number(kind as usize, b',');
    out.put_number(which as usize, b',');
    out.put_number(first, b',');
    out.put_number(end, b',');
    out.put_number(usize::from(newline), b' ');
}

// The part of a text that an element is.
fn part(text: &[u8], e: Element) -> &[u8]
    ensures { result.now ≡ lexeme_of text.now e }
{
    Walk::new(text).lexeme(e)
}
