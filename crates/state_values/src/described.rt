//! What a description signals of a section.
ghost use Rattle.std.specs.Prelude.{◌≡◌, IfOk, IfSome, IfNone};
ghost use Rattle.sdp_text.specs.declared.section.Section.{Section};
ghost use Rattle.ng_bencode.specs.Tree.{tree_of};
ghost use Rattle.state_values.specs.OfferTrees.{section_tree, FitsSection};

use crate::fields::{next_field, none_left, pairs_in, put_pair};
use crate::forms::{flag_value, read_flag};
use crate::hosts::{host_option_value, read_host_option};
use crate::numbers::{read_port, read_word, word_value};
use crate::variants::{proto_value, read_proto};
use ng_bencode::{Pairs, Row, Value};
use relay_outside::OutOfMemory;
use sdp_text::Section;
use std::alloc::Global;

/// What a description signals of a section.
pub(crate) fn section_value(alloc: Global, section: &Section) -> Result<Value, OutOfMemory>
    ensures { IfOk result (λ value. tree_of value ≡ section_tree section.now) }
{
    let mut pairs: Pairs = Row::new(alloc);
    put_pair(
        alloc,
        &mut pairs,
        b"address",
        host_option_value(alloc, section.address)?,
    )?;
    put_pair(alloc, &mut pairs, b"hold", flag_value(section.hold))?;
    put_pair(alloc, &mut pairs, b"line", word_value(section.line))?;
    put_pair(alloc, &mut pairs, b"mux", flag_value(section.mux))?;
    put_pair(
        alloc,
        &mut pairs,
        b"port",
        word_value(u32::from(section.port)),
    )?;
    put_pair(alloc, &mut pairs, b"proto", proto_value(section.proto))?;
    put_pair(
        alloc,
        &mut pairs,
        b"rtcp_address",
        host_option_value(alloc, section.rtcp_address)?,
    )?;
    put_pair(
        alloc,
        &mut pairs,
        b"rtcp_port",
        word_value(u32::from(section.rtcp_port)),
    )?;
    Ok(Value::dict(pairs))
}

/// What is written so.
pub(crate) fn read_section(value: &Value) -> Option<Section>
    ensures some { IfSome result (λ section. tree_of value.now ≡ section_tree section) }
    ensures none { IfNone result ((section : Section) → FitsSection section → tree_of value.now ≡ section_tree section → ⊥) }
{
    let mut pairs = pairs_in(value)?;
    let address = next_field(&mut pairs, b"address")?;
    let hold = next_field(&mut pairs, b"hold")?;
    let line = next_field(&mut pairs, b"line")?;
    let mux = next_field(&mut pairs, b"mux")?;
    let port = next_field(&mut pairs, b"port")?;
    let proto = next_field(&mut pairs, b"proto")?;
    let rtcp_address = next_field(&mut pairs, b"rtcp_address")?;
    let rtcp_port = next_field(&mut pairs, b"rtcp_port")?;
    none_left(pairs)?;
    Some(Section {
        address: read_host_option(address)?,
        hold: read_flag(hold)?,
        line: read_word(line)?,
        mux: read_flag(mux)?,
        port: read_port(port)?,
        proto: read_proto(proto)?,
        rtcp_address: read_host_option(rtcp_address)?,
        rtcp_port: read_port(rtcp_port)?,
    })
}
