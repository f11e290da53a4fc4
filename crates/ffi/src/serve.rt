// A history of calls, made one after another on any disk and console.
ghost use Rattle.std.specs.Prelude.{◌≡◌};
ghost use Rattle.station.specs.Views.{disk_of};
ghost use Rattle.ffi.specs.Calls.{bench, Answers};
ghost use Rattle.ffi.specs.Serves.{new_bench, Served};

use crate::asked::Asked;
use crate::call::{Call, Reply};
use crate::replies::refused;
use crate::single::{collect, feed, registers, run, sector, start, tally};
use console::Console;
use disk::Writable;
use station::unit::Station;

// What is lent stays parameters in this crate: a struct of several `&mut` would need a clause on each method that it still holds the same.

// Makes one call, whatever it asks for: each kind takes other parts, so that closures would be no plainer.
fn answer<D: Writable, C: Console>(
    station: &mut Station,
    memory: &mut [u8],
    disk: &mut D,
    console: &mut C,
    data: &[u8],
    out: &mut [u8],
    call: Call,
) -> Reply
    ensures { Answers C.Console.kind call «data».now (bench station.old memory.old (disk_of D.Readable D.Writable.own disk.old) (C.Console.meaning console.old) out.old) result (bench station.new memory.new (disk_of D.Readable D.Writable.own disk.new) (C.Console.meaning console.new) out.new) }
{
    let Ok(asked) = Asked::try_from(call.kind) else {
        return refused(255);
    };
    match asked {
        Asked::Start => start(station, memory, disk, console, call),
        Asked::Run => run(station, memory, disk, console, call),
        Asked::Feed => feed(station, console, data, call),
        Asked::Collect => collect(station, console, out, call),
        Asked::Tally => tally(station, memory, disk, data, call),
        Asked::Registers => registers(station, out, call),
        Asked::Sector => sector(disk, out, call),
    }
}

// Makes the calls one after another on a new station, and says how many were made.
pub(crate) fn serve<D: Writable, C: Console>(
    memory: &mut [u8],
    disk: &mut D,
    console: &mut C,
    data: &[u8],
    out: &mut [u8],
    calls: &[Call],
    replies: &mut [Reply],
) -> usize
    ensures { (s : Station) × Served C.Console.kind «data».now (new_bench memory.old (disk_of D.Readable D.Writable.own disk.old) (C.Console.meaning console.old) out.old) calls.now replies.old result replies.new (bench s memory.new (disk_of D.Readable D.Writable.own disk.new) (C.Console.meaning console.new) out.new) }
{
    let mut station = Station::new();
    let room = replies.len();
    // A zip with `iter_mut` says nothing of what is written, so the call is looked up.
    for (k, reply) in replies.iter_mut().enumerate() {
        let Some(call) = calls.get(k) else {
            return k;
        };
        *reply = answer(&mut station, memory, disk, console, data, out, *call);
    }
    room
}
