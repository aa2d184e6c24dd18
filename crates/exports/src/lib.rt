// The calls for programs in other languages, as `include` declares them: names, slices and the packed answer are the C interface. A slice is
// passed as a pointer and a length.
#![tactic(auto)]

ghost use Rattle.reading.specs.Read.{Reads};
ghost use Rattle.respacer.specs.Respace.{Respaces};
ghost use Rattle.parsing.specs.Parse.{Parses};
ghost use Rattle.packing.specs.Packed.{Packs};

// reader::read.
#[unsafe(no_mangle)]
pub extern "C" fn buldrekso_read(text: &[u8], trees: &mut [u32]) -> u64
    ensures { Packs (Reads text.now trees.old trees.new) result }
{
    packing::pack(reader::read(text, trees))
}

// respacer::respace.
#[unsafe(no_mangle)]
pub extern "C" fn buldrekso_respace(text: &[u8], output: &mut [u8]) -> u64
    ensures { Packs (Respaces text.now output.old output.new) result }
{
    packing::pack(respacer::respace(text, output))
}

// parser::parse.
#[unsafe(no_mangle)]
pub extern "C" fn buldrekso_parse(text: &[u8], trees: &mut [u32], syntax: &mut [u32]) -> u64
    ensures { Packs (Parses text.now trees.old syntax.old trees.new syntax.new) result }
{
    packing::pack(parser::parse(text, trees, syntax))
}
