//! A handle gets a connection and loses it.
use crate::handle::Handle;
use crate::moving::{teivorm_raw_free, teivorm_raw_new, teivorm_raw_write};
use crate::reading::teivorm_raw_phase;
use amqp_caller::Settings;
use std::alloc::Global;

fn starts(alloc: Global, handle: &mut Handle) -> bool {
    let settings = Settings {
        max_frame: 0,
        window: 0,
        journal_limit: 0,
        first_id: 0,
        idle_time_out: 0,
    };
    let mut room = [0; 64];
    teivorm_raw_write(alloc, handle, &mut room) == 0
        && teivorm_raw_new(alloc, handle, b"a", b"", &settings) == 0
        && teivorm_raw_write(alloc, handle, &mut room) == 8
        && &room[..8] == b"AMQP\x00\x01\x00\x00".as_slice()
        && teivorm_raw_phase(alloc, handle) == 1
}

#[test]
fn is_started_and_freed(rt: HostRuntime) {
    let alloc = rt.alloc();
    let mut handle = Handle::empty(alloc);
    let started = starts(alloc, &mut handle);
    teivorm_raw_free(alloc, &mut handle);
    let phase = teivorm_raw_phase(alloc, &mut handle);
    drop(handle);
    assert!(rt; started && phase == 0);
}
