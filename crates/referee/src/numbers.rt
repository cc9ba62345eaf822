//! The numbers by which rules are told.

ghost use Rattle.std.specs.Prelude.{◌≡◌, ◌<◌};
ghost use Rattle.referee.specs.Numbers.{act_number, answer_number, call_number, cancel_number, number_of, number_of_rule, owed_number, removal_number, return_number, start_number};

use crate::why::Why;
use judge::{
    ActRule, AnswerRule, CallRule, CancelRule, OwedRule, RemovalRule, ReturnRule, Rule, StartRule,
};

fn owed_number(rule: OwedRule) -> u32
    ensures number { result ≡ owed_number rule }
    ensures positive { 0 < result }
{
    match rule {
        OwedRule::Other { .. } => 101,
        OwedRule::Status { .. } => 102,
        OwedRule::Information { .. } => 103,
        OwedRule::Bytes { .. } => 104,
    }
}

fn call_number(rule: CallRule) -> u32
    ensures number { result ≡ call_number rule }
    ensures positive { 0 < result }
{
    match rule {
        CallRule::Number { .. } => 201,
        CallRule::Refused { .. } => 202,
        CallRule::Bytes { .. } => 203,
    }
}

fn start_number(rule: StartRule) -> u32
    ensures number { result ≡ start_number rule }
    ensures positive { 0 < result }
{
    match rule {
        StartRule::Number { .. } => 301,
        StartRule::Depth { .. } => 302,
        StartRule::TagInUse { .. } => 303,
        StartRule::Tag { .. } => 304,
        StartRule::Block(_) => 305,
        StartRule::NotPlain(_) => 306,
        StartRule::NotOpen { .. } => 307,
        StartRule::NotAsked(_) => 308,
        StartRule::Held { .. } => 309,
    }
}

fn act_number(rule: ActRule) -> u32
    ensures number { result ≡ act_number rule }
    ensures positive { 0 < result }
{
    match rule {
        ActRule::NoPiece { .. } => 401,
        ActRule::Before { .. } => 402,
        ActRule::Length { .. } => 403,
        ActRule::Write(_) => 404,
        ActRule::Disk(_) => 405,
        ActRule::NoSectors { .. } => 406,
    }
}

fn return_number(rule: ReturnRule) -> u32
    ensures number { result ≡ return_number rule }
    ensures positive { 0 < result }
{
    match rule {
        ReturnRule::NoPiece { .. } => 501,
        ReturnRule::GoodWithoutAct { .. } => 502,
        ReturnRule::BusyAfterAct { .. } => 503,
        ReturnRule::GoodCode { .. } => 504,
    }
}

fn answer_number(rule: AnswerRule) -> u32
    ensures number { result ≡ answer_number rule }
    ensures positive { 0 < result }
{
    match rule {
        AnswerRule::NotOpen { .. } => 601,
        AnswerRule::Out { .. } => 602,
        AnswerRule::Waits { .. } => 603,
        AnswerRule::NotDone { .. } => 604,
        AnswerRule::AllDone { .. } => 605,
        AnswerRule::Status { .. } => 606,
        AnswerRule::Information { .. } => 607,
        AnswerRule::Bytes(_) => 608,
    }
}

fn cancel_number(rule: CancelRule) -> u32
    ensures number { result ≡ cancel_number rule }
    ensures positive { 0 < result }
{
    match rule {
        CancelRule::NotOpen { .. } => 701,
        CancelRule::Before { .. } => 702,
    }
}

fn removal_number(rule: RemovalRule) -> u32
    ensures number { result ≡ removal_number rule }
    ensures positive { 0 < result }
{
    match rule {
        RemovalRule::Paused => 801,
        RemovalRule::NotPaused => 802,
        RemovalRule::Removing => 803,
        RemovalRule::NotRemoving => 804,
        RemovalRule::Removed => 805,
        RemovalRule::Open { .. } => 806,
    }
}

fn number_of_rule(rule: Rule) -> u32
    ensures number { result ≡ number_of_rule rule }
    ensures positive { 0 < result }
{
    match rule {
        Rule::Owed(rule) => owed_number(rule),
        Rule::Call(rule) => call_number(rule),
        Rule::Start(rule) => start_number(rule),
        Rule::Act(rule) => act_number(rule),
        Rule::Return(rule) => return_number(rule),
        Rule::Answer(rule) => answer_number(rule),
        Rule::Cancel(rule) => cancel_number(rule),
        Rule::Removal(rule) => removal_number(rule),
    }
}

/// The number that says why a line isn't taken.
pub(crate) fn number_of(why: Why) -> u32
    ensures number { result ≡ number_of why }
    ensures positive { 0 < result }
{
    match why {
        Why::Breaks(rule) => number_of_rule(rule),
        Why::BadLine { .. } => 1,
        Why::NoPartition { .. } => 2,
        Why::NoMemory => 3,
        Why::Readings { .. } => 4,
        Why::BadLabel => 5,
    }
}
