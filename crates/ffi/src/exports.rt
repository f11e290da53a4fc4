// The functions that other languages call.
ghost use Rattle.std.specs.Prelude.{◌≡◌, ℕ, ◌&&◌, length, Result};
ghost use Rattle.assembler.specs.Assembly.{Assembles};
ghost use Rattle.assembler.specs.Lists.{Lists};
ghost use Rattle.assembler.specs.declared.assembler.AssembleRefusal.{AssembleRefusal};
ghost use Rattle.assembler.specs.declared.lister.ListRefusal.{ListRefusal};
ghost use Rattle.station.specs.Views.{disk_of};
ghost use Rattle.ffi.specs.Given.{disk_given, console_given, buffers, ComesTo};
ghost use Rattle.ffi.specs.Replies.{assemble_reply, list_reply};

use crate::call::{Call, Reply};
use crate::serve::serve;
use assembler::assembler::assemble;
use assembler::lister::list;
use console::{Keyboard, Script};
use disk::{Image, ReadOnlyImage, Writable};
use overlay::Overlay;
use std::alloc::Global;

// Assembles a text into the output.
#[unsafe(no_mangle)]
pub extern "C" fn guldresin_assemble(text: &[u8], out: &mut [u8], reply: &mut Reply)
    ensures { (r : Result ℕ AssembleRefusal) × Assembles text.now out.old r out.new × (reply.new ≡ assemble_reply r) }
{
    *reply = Reply::from(assemble(text, out));
}

// Lists words into the output.
#[unsafe(no_mangle)]
pub extern "C" fn guldresin_list(words: &[u8], out: &mut [u8], reply: &mut Reply)
    ensures { (r : Result ℕ ListRefusal) × Lists words.now out.old r out.new × (reply.new ≡ list_reply r) }
{
    *reply = Reply::from(list(words, out));
}

// Which console there is, and what all calls are given. The flag is C's.
#[derive(Clone, Copy)]
struct Given<'a> {
    scripted: bool,
    data: &'a [u8],
    calls: &'a [Call],
}

// Makes the calls on any disk: only a keyboard wants memory.
fn on_disk<'a, 'b, D: Writable>(
    heap: Global,
    disk: &mut D,
    given: Given<'b>,
    text: &'a [u8],
    paper: &'a mut [u8],
    memory: &mut [u8],
    out: &mut [u8],
    replies: &mut [Reply],
) -> usize
    ensures { ComesTo given.entry.scripted given.entry.scripted given.entry.«data».now (disk_of D.Readable D.Writable.own disk.old) (console_given given.entry.scripted text.now (length paper.old)) given.entry.calls.now (buffers memory.old out.old paper.old replies.old) result (buffers memory.new out.new paper.new replies.new) }
{
    let data = given.data;
    let calls = given.calls;
    if given.scripted {
        let mut console = Script::new(text, paper);
        return serve(memory, disk, &mut console, data, out, calls, replies);
    }
    let Ok(mut console) = Keyboard::new(heap) else {
        return 0;
    };
    serve(memory, disk, &mut console, data, out, calls, replies)
}

// Makes calls on a new station, and says how many. The bytes are only read; what a script leaves on the paper is not promised.
#[unsafe(no_mangle)]
pub extern "C" fn guldresin_serve<'a>(
    heap: Global,
    // C has flags for the two
    overlaid: bool,
    scripted: bool,
    bytes: &[u8],
    text: &[u8],
    paper: &mut [u8],
    memory: &mut [u8],
    data: &'a [u8],
    out: &mut [u8],
    calls: &'a [Call],
    replies: &mut [Reply],
) -> usize
    ensures { ComesTo (overlaid && scripted) scripted «data».now (disk_given overlaid bytes.now) (console_given scripted text.now (length paper.old)) calls.now (buffers memory.old out.old paper.old replies.old) result (buffers memory.new out.new paper.new replies.new) }
{
    let given = Given {
        scripted,
        data,
        calls,
    };
    if overlaid {
        let mut disk = Overlay::new(ReadOnlyImage::new(bytes));
        return on_disk(heap, &mut disk, given, text, paper, memory, out, replies);
    }
    let Ok(mut copy) = bytes.to_vec(heap) else {
        return 0;
    };
    let mut disk = Image::new(copy.as_mut_slice());
    on_disk(heap, &mut disk, given, text, paper, memory, out, replies)
}
