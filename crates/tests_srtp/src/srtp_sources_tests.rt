ghost use Rattle.std.specs.Prelude.{◌<◌, ◌^◌};

use crate::cases::none_failed;
use replay_window::{Fresh, Near};
use srtp_keys::UnprotectFault;
use srtp_sources::{Sources, packet_counter};
use std::test::Fail;

// The counter of RFC 3711, appendix B.2, and the same salt with an SSRC and an index, added up by hand.
#[test]
fn counters(rt: HostRuntime) {
    let salt = b"\xf0\xf1\xf2\xf3\xf4\xf5\xf6\xf7\xf8\xf9\xfa\xfb\xfc\xfd";
    let plain = packet_counter(salt, 0, 0);
    assert!(rt; plain == 0xf0f1_f2f3_f4f5_f6f7_f8f9_fafb_fcfd_0000);
    let mixed = packet_counter(salt, 0xdead_beef, 0x1234_5678_9abc);
    assert!(rt; mixed == 0xf0f1_f2f3_2a58_4818_eacd_ac83_6641_0000);
}

/// The first of 32 sources whose number 65,535 isn't taken.
fn not_taken(sources: &mut Sources) -> Option<usize> {
    for ssrc in 0..32u32 {
        let source = sources.find(ssrc);
        if sources.take(source, 65_535).is_err() {
            return Some(ssrc as usize);
        }
    }
    None
}

/// The first of 32 sources whose number 65,535 isn't noted.
fn not_noted(sources: &Sources) -> Option<usize> {
    for ssrc in 0..32u32 {
        let source = sources.find(ssrc);
        let is_noted = sources.near_of(source, 0) == Near::At(65_536)
            && sources.fresh_of(source, 65_535) == Fresh::Used;
        if !is_noted {
            return Some(ssrc as usize);
        }
    }
    None
}

/// What becomes of an index of a source.
fn take(sources: &mut Sources, ssrc: u32, index: u64) -> Result<(), UnprotectFault>
    requires { index < 2 ^ 48 }
{
    let source = sources.find(ssrc);
    sources.take(source, index)
}

#[test]
fn sources_come_in_and_none_goes(rt: HostRuntime) {
    let mut sources = Sources::new();
    let source = sources.find(0);
    assert!(rt; sources.near_of(source, 7) == Near::At(7));
    none_failed(&rt, "the sources that come in", not_taken(&mut sources));
    none_failed(&rt, "the sources that stay", not_noted(&sources));
    assert!(rt; take(&mut sources, 32, 7) == Err(UnprotectFault::TooManySources));
    assert!(rt; take(&mut sources, 7, 65_536) == Ok(()));
    assert!(rt; take(&mut sources, 7, 65_536) == Err(UnprotectFault::Replayed));
    assert!(rt; take(&mut sources, 7, 65_408) == Err(UnprotectFault::TooOld));
    assert!(rt; take(&mut sources, 8, 65_408) == Ok(()));
}

#[test]
fn a_full_table_is_saved(rt: HostRuntime) -> Result<(), Fail> {
    let mut sources = Sources::new();
    none_failed(&rt, "the sources that come in", not_taken(&mut sources));
    let saved = sources.save();
    let mut loaded = Sources::load(&saved).ok_or("a table is loaded")?;
    none_failed(&rt, "the sources that stay", not_noted(&loaded));
    assert!(rt; take(&mut loaded, 32, 7) == Err(UnprotectFault::TooManySources));
    Ok(())
}

#[test]
fn saved_tables_have_32_sources_at_most(rt: HostRuntime) {
    let mut saved = Sources::new().save();
    saved[0] = 33;
    assert!(rt; Sources::load(&saved).is_none());
    saved[0] = 0;
    saved[129] = 2;
    assert!(rt; Sources::load(&saved).is_none());
}

#[test]
fn memory_of_a_table(rt: HostRuntime) -> std::io::Result<()> {
    let size = std::mem::size_of::<Sources>();
    println!(rt; "a table of 32 sources takes {size} bytes")?;
    assert!(rt; size <= 1_200);
    Ok(())
}
