// When a shut-off is obeyed.
ghost use Rattle.std.specs.Prelude.{◌≡◌, ◌<◌, ◌≤◌, ◌^◌, length, drop, IfSome, IsSome};
ghost use Rattle.aip_frame.specs.Frame.{frame_of};
ghost use Rattle.aip_frame.specs.declared.frame.Kind.TheVariants as kind;
ghost use Rattle.lms_core.specs.Verify.{is_valid_signature};
ghost use Rattle.shutoff_filter.specs.Body.{order_in, signature_in};
ghost use Rattle.shutoff_filter.specs.Entries.{entries_of};
ghost use Rattle.shutoff_filter.specs.Judged.{body_verdict, is_full, is_in_log, order_verdict, refusal_number, shutoff_verdict};

use crate::bodies::{Order, SHORTEST, order_in, shutoff_text};
use crate::slots::{Slots, others_in_force};
use aip_addr::{Address, owns};
use aip_frame::{body_of, from_of, to_of};
use lms_core::verify_under;
use sent_log::SentLog;

/// How a shut-off is judged: it is obeyed, or the first reason why not.
#[derive(Clone, Copy, Debug, PartialEq, Eq)]
pub enum Heard {
    /// The key identifier of its source is in force until this tick.
    Obeyed {
        /// The first tick at which it isn't in force any more.
        until: u64,
    },
    /// The body has fewer than 100 bytes.
    Body,
    /// The key doesn't own the id of the frame's source.
    Key,
    /// The signature isn't valid.
    Signature,
    /// It is issued later than now.
    Early,
    /// It has lapsed.
    Late,
    /// The log has no packet of this hash for its sender.
    Unlogged,
    /// As many other key identifiers are in force as there is room for.
    Full,
}

impl Heard {
    /// The number of a refusal, 1 to 7 in the order of the list, and 0 for a shut-off that is obeyed.
    pub fn number(self) -> u64
        ensures { result ≡ refusal_number self }
    {
        match self {
            Heard::Obeyed { .. } => 0,
            Heard::Body => 1,
            Heard::Key => 2,
            Heard::Signature => 3,
            Heard::Early => 4,
            Heard::Late => 5,
            Heard::Unlogged => 6,
            Heard::Full => 7,
        }
    }
}

/// How a shut-off that reaches a host at a time is judged over its log of packets and its filter. Nothing changes.
#[tactic(auto, using(crate::proofs::Verdicts::short))]
pub fn judge(slots: &Slots, log: &SentLog, frame: &[u8], now: u64) -> Heard
    requires soon { now < 2 ^ 48 }
    requires frame { IsSome (frame_of frame.now) }
    requires shutoff { IfSome (frame_of frame.now) (λ f. f.kind ≡ kind.ShutOff) }
    ensures { IfSome (frame_of frame.now) (λ f. result
        ≡ shutoff_verdict now f (is_in_log log.now.frames f.from (order_in f.body))
        (is_full slots.now.room now f.from (entries_of slots.now.slots.items))) }
{
    let body = body_of(frame);
    if body.len() < SHORTEST {
        return Heard::Body;
    }
    judge_body(slots, log, &from_of(frame), &to_of(frame), body, now)
}

// How a body that is long enough is judged.
fn judge_body(
    slots: &Slots,
    log: &SentLog,
    from: &Address,
    to: &Address,
    body: &[u8],
    now: u64,
) -> Heard
    requires soon { now < 2 ^ 48 }
    requires long { 100 ≤ length body.now }
    ensures { result ≡ body_verdict now from.now to.now body.now (is_in_log log.now.frames from.now (order_in body.now))
        (is_full slots.now.room now from.now (entries_of slots.now.slots.items)) }
{
    judge_order(
        slots,
        log,
        from,
        to,
        &order_in(body),
        &body[SHORTEST..],
        now,
    )
}

// How an order is judged.
fn judge_order(
    slots: &Slots,
    log: &SentLog,
    from: &Address,
    to: &Address,
    order: &Order,
    signature: &[u8],
    now: u64,
) -> Heard
    requires soon { now < 2 ^ 48 }
    ensures { result
        ≡ order_verdict now from.now to.now order.now signature.now (is_in_log log.now.frames from.now order.now)
        (is_full slots.now.room now from.now (entries_of slots.now.slots.items)) }
{
    if !owns(&order.key, &from.eid) {
        return Heard::Key;
    }
    let text = shutoff_text(from, to, &order.hash, order.issue, order.ttl);
    if !verify_under(&order.key, &text, signature) {
        return Heard::Signature;
    }
    if order.issue > now {
        return Heard::Early;
    }
    let until = order.issue + order.ttl as u64;
    if until <= now {
        return Heard::Late;
    }
    let sender = from.eid.key_id();
    if !log.holds(&order.hash, &sender) {
        return Heard::Unlogged;
    }
    if others_in_force(&slots.slots, &sender, now) >= slots.room as usize {
        return Heard::Full;
    }
    Heard::Obeyed { until }
}
