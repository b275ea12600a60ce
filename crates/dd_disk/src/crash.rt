// The image that a crash leaves, made from the calls of a disk in memory.
ghost use Rattle.std.specs.Prelude.{◌≡◌, ◌+◌, ◌≤◌, length, take, IsTrue, IfOk, OnOk};
ghost use Rattle.dd_disk.specs.Calls.{end_of, shown_by, shown_after, filled_by, left_out, reached as reached_of, stop_image, IsPast};
ghost use Rattle.dd_disk.specs.Stops.{EndsSynced, filled_write};

use crate::bytes::put;
use crate::call::{Asked, Call, Fill};
use std::alloc::{AllocError, Global};

// The image of a stop inside the call of this number.
pub(crate) fn image_inside(
    alloc: Global,
    first: &[u8],
    calls: &[Call],
    stop: u64,
    fill: Fill,
) -> Result<Vec<u8>, AllocError>
    requires { (count : _) × IsPast (length first.now) count calls.now }
    ensures { IfOk result (λ image. image.items ≡ stop_image first.now calls.now stop fill) }
{
    let made = reached(calls, stop);
    let (before, after) = made.split_at(synced(made));
    let mut shown = replay(alloc, first, before)?;
    let mut image = shown.as_slice().to_vec(alloc)?;
    for call in after {
        go_on(alloc, &mut image, &mut shown, call, fill)?;
    }
    Ok(image)
}

// The calls that a stop inside the call of this number lets through.
fn reached<'a>(calls: &'a [Call], stop: u64) -> &'a [Call]
    ensures { result.now ≡ reached_of stop calls.now }
{
    for (i, call) in calls.iter().enumerate() {
        if is_left_out(stop, call.number, &call.asked) {
            return &calls[..i];
        }
    }
    calls
}

// What reads give after these calls.
fn replay(alloc: Global, first: &[u8], calls: &[Call]) -> Result<Vec<u8>, AllocError>
    requires { (count : _) × IsPast (length first.now) count calls.now }
    ensures { IfOk result (λ shown. shown.items ≡ shown_after first.now calls.now) }
{
    let mut shown = first.to_vec(alloc)?;
    for call in calls {
        show(&mut shown, &call.asked);
    }
    Ok(shown)
}

// How many calls there were up to the last sync that was done. What a crash leaves then is what reads give, which spares
// the filling of all that was written before.
fn synced(calls: &[Call]) -> usize
    ensures within { result ≤ length calls.now }
    ensures synced { EndsSynced (take result calls.now) }
{
    let mut count = 0;
    for (i, call) in calls.iter().enumerate() {
        if call.done && is_sync(&call.asked) {
            count = i + 1;
        }
    }
    count
}

fn is_sync(asked: &Asked) -> bool
    ensures { IsTrue result → asked.now ≡ Asked.Sync }
{
    match asked {
        Asked::Sync => true,
        _ => false,
    }
}

// What reads give after a call.
fn show(shown: &mut Vec<u8>, asked: &Asked)
    requires { end_of asked.now ≤ length shown.old.items }
    ensures { shown.new.items ≡ shown_by asked.now shown.old.items }
{
    match asked {
        Asked::Write(at, bytes) => put(shown, *at as usize, bytes),
        _ => {}
    }
}

// A call that the crash comes before, or inside of with nothing written.
fn is_left_out(stop: u64, number: u64, asked: &Asked) -> bool
    ensures { result ≡ left_out stop number asked.now }
{
    match asked {
        Asked::Write(_, _) => stop < number,
        Asked::Read(_, _) | Asked::Sync => stop <= number,
    }
}

fn go_on(
    alloc: Global,
    image: &mut Vec<u8>,
    shown: &mut Vec<u8>,
    call: &Call,
    fill: Fill,
) -> Result<(), AllocError>
    requires image { end_of call.now.asked ≤ length image.old.items }
    requires shown { end_of call.now.asked ≤ length shown.old.items }
    ensures shown { OnOk result (shown.new.items ≡ shown_by call.now.asked shown.old.items) }
    ensures image { OnOk result (image.new.items ≡ filled_by fill call.now.asked call.now.done shown.old.items image.old.items) }
{
    match &call.asked {
        Asked::Read(_, _) => Ok(()),
        Asked::Write(at, bytes) => {
            fill_in(alloc, image, *at as usize, bytes, fill)?;
            put(shown, *at as usize, bytes);
            Ok(())
        }
        Asked::Sync => {
            if call.done {
                *image = shown.as_slice().to_vec(alloc)?;
            }
            Ok(())
        }
    }
}

fn fill_in(
    alloc: Global,
    image: &mut Vec<u8>,
    at: usize,
    bytes: &[u8],
    fill: Fill,
) -> Result<(), AllocError>
    requires { at + length bytes.now ≤ length image.old.items }
    ensures { OnOk result (image.new.items ≡ filled_write fill at bytes.now image.old.items) }
{
    match fill {
        Fill::Old => {}
        Fill::New => put(image, at, bytes),
        Fill::Byte(byte) => {
            let same = vec![in alloc; byte; bytes.len()]?;
            put(image, at, &same);
        }
    }
    Ok(())
}
