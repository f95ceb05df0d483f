//! How an offer is to be served.
ghost use Rattle.std.specs.Prelude.{◌≡◌, IfOk, IfSome, IfNone};
ghost use Rattle.relay_outside.specs.declared.settings.Flags.{Flags};
ghost use Rattle.ng_command.specs.declared.command.Options.{Options};
ghost use Rattle.ng_bencode.specs.Tree.{tree_of};
ghost use Rattle.state_values.specs.OfferTrees.{flags_tree, options_tree, FitsOptions};

use crate::fields::{next_field, none_left, pairs_in, put_pair};
use crate::forms::{flag_value, read_flag};
use crate::hosts::{ip_option_value, read_ip_option};
use crate::variants::{
    family_option_value, proto_option_value, read_family_option, read_proto_option,
};
use ng_bencode::{Pairs, Row, Value};
use ng_command::Options;
use relay_outside::{Flags, OutOfMemory};
use std::alloc::Global;

/// The flags that say whose packets are taken.
pub(crate) fn flags_value(alloc: Global, flags: &Flags) -> Result<Value, OutOfMemory>
    ensures { IfOk result (λ value. tree_of value ≡ flags_tree flags.now) }
{
    let mut pairs: Pairs = Row::new(alloc);
    put_pair(
        alloc,
        &mut pairs,
        b"asymmetric",
        flag_value(flags.asymmetric),
    )?;
    put_pair(alloc, &mut pairs, b"handover", flag_value(flags.handover))?;
    put_pair(alloc, &mut pairs, b"strict", flag_value(flags.strict))?;
    Ok(Value::dict(pairs))
}

/// What is written so.
pub(crate) fn read_flags(value: &Value) -> Option<Flags>
    ensures some { IfSome result (λ flags. tree_of value.now ≡ flags_tree flags) }
    ensures none { IfNone result ((flags : Flags) → tree_of value.now ≡ flags_tree flags → ⊥) }
{
    let mut pairs = pairs_in(value)?;
    let asymmetric = next_field(&mut pairs, b"asymmetric")?;
    let handover = next_field(&mut pairs, b"handover")?;
    let strict = next_field(&mut pairs, b"strict")?;
    none_left(pairs)?;
    Some(Flags {
        asymmetric: read_flag(asymmetric)?,
        handover: read_flag(handover)?,
        strict: read_flag(strict)?,
    })
}

/// The options of an offer.
pub(crate) fn options_value(alloc: Global, options: &Options) -> Result<Value, OutOfMemory>
    ensures { IfOk result (λ value. tree_of value ≡ options_tree options.now) }
{
    let mut pairs: Pairs = Row::new(alloc);
    put_pair(
        alloc,
        &mut pairs,
        b"family",
        family_option_value(alloc, options.family)?,
    )?;
    put_pair(
        alloc,
        &mut pairs,
        b"flags",
        flags_value(alloc, &options.flags)?,
    )?;
    put_pair(
        alloc,
        &mut pairs,
        b"mux_accept",
        flag_value(options.mux_accept),
    )?;
    put_pair(
        alloc,
        &mut pairs,
        b"mux_demux",
        flag_value(options.mux_demux),
    )?;
    put_pair(
        alloc,
        &mut pairs,
        b"mux_offer",
        flag_value(options.mux_offer),
    )?;
    put_pair(
        alloc,
        &mut pairs,
        b"replace_origin",
        flag_value(options.replace_origin),
    )?;
    put_pair(
        alloc,
        &mut pairs,
        b"replace_session",
        flag_value(options.replace_session),
    )?;
    put_pair(
        alloc,
        &mut pairs,
        b"source",
        ip_option_value(alloc, options.source)?,
    )?;
    put_pair(
        alloc,
        &mut pairs,
        b"transport",
        proto_option_value(alloc, options.transport)?,
    )?;
    Ok(Value::dict(pairs))
}

/// What is written so.
pub(crate) fn read_options(value: &Value) -> Option<Options>
    ensures some { IfSome result (λ options. tree_of value.now ≡ options_tree options) }
    ensures none { IfNone result ((options : Options) → FitsOptions options → tree_of value.now ≡ options_tree options → ⊥) }
{
    let mut pairs = pairs_in(value)?;
    let family = next_field(&mut pairs, b"family")?;
    let flags = next_field(&mut pairs, b"flags")?;
    let mux_accept = next_field(&mut pairs, b"mux_accept")?;
    let mux_demux = next_field(&mut pairs, b"mux_demux")?;
    let mux_offer = next_field(&mut pairs, b"mux_offer")?;
    let replace_origin = next_field(&mut pairs, b"replace_origin")?;
    let replace_session = next_field(&mut pairs, b"replace_session")?;
    let source = next_field(&mut pairs, b"source")?;
    let transport = next_field(&mut pairs, b"transport")?;
    none_left(pairs)?;
    Some(Options {
        family: read_family_option(family)?,
        flags: read_flags(flags)?,
        mux_accept: read_flag(mux_accept)?,
        mux_demux: read_flag(mux_demux)?,
        mux_offer: read_flag(mux_offer)?,
        replace_origin: read_flag(replace_origin)?,
        replace_session: read_flag(replace_session)?,
        source: read_ip_option(source)?,
        transport: read_proto_option(transport)?,
    })
}
