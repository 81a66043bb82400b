ghost use Rattle.std.specs.Prelude.{◌≡◌, [], length};
ghost use Rattle.object_store.specs.ImageReading.{body_at};
ghost use Rattle.plan_base.specs.Fitting.{fails, is_stripe_kind, is_node_text, fits_question};

use crate::listed::rise_to_end;
use crate::question::Question;
use byte_grammar::u32_at;
use object_store::{Body, ObjectKind};
use out_update::UpdateResult;

/// Whether it is this error, without bytes.
fn fails(fact: &UpdateResult, code: u32) -> bool
    ensures { result ≡ fails fact.now code }
{
    fact.code == code && fact.body.is_empty()
}

fn is_stripe_kind(kind: ObjectKind) -> bool
    ensures { result ≡ is_stripe_kind kind }
{
    match kind {
        ObjectKind::Stripe => true,
        ObjectKind::File | ObjectKind::Directory => false,
    }
}

/// Whether the bytes are the body of a node, the count of its attributes, and a zero.
fn is_node_text(bytes: &[u8]) -> bool
    ensures { result ≡ is_node_text (body_at (length bytes.now) bytes.now) }
{
    let Ok((body, rest)) = Body::decode(bytes) else {
        return false;
    };
    if is_stripe_kind(body.kind) {
        return false;
    }
    let Ok((_, rest)) = u32_at(rest) else {
        return false;
    };
    match u32_at(rest) {
        Ok((zero, rest)) => zero == 0 && rest.len() == 0,
        Err(_) => false,
    }
}

/// Whether a question may have this result.
#[tactic(auto, unfolding(crate::specs::Fitting::fits_question))]
pub(crate) fn fits_question(question: &Question, fact: &UpdateResult) -> bool
    ensures { result ≡ fits_question question.now fact.now }
{
    let done = fact.code == 0;
    let len = fact.body.len();
    match question {
        Question::Node(_) => {
            if done {
                is_node_text(fact.body.bytes())
            } else {
                fails(fact, 2)
            }
        }
        Question::Value(_, _) => {
            if done {
                len <= 4096
            } else {
                fails(fact, 2) || fails(fact, 61)
            }
        }
        Question::Entry(_, _, _) => {
            if done {
                len == 16
            } else {
                fails(fact, 2) || fails(fact, 20)
            }
        }
        Question::Count(_, _, _) => { if done { len == 4 } else { fails(fact, 20) } }
        Question::Names(_, _, _) => {
            if done {
                rise_to_end(fact.body.bytes())
            } else {
                fails(fact, 20)
            }
        }
    }
}
