//! A counter that is called by one pass, by two threads, and until its history is full; and an object whose call is
//! under way while another thread tries.
ghost use Rattle.std.specs.Prelude.{◌≡◌, ◌^◌, ◌≤◌};
ghost use Rattle.shared_object.specs.Histories.{BelongsTo};
ghost use Rattle.top_tests.specs.Counter.{HasCounted, AnswersValues};
ghost use Rattle.top_tests.specs.declared.objects.CounterCall.TheVariants.{Add, Read};

use crate::checks::{check, check_eq};
use crate::signal::Signal;
use shared_object::{Answer, Pass, Sequential, Share, meet};
use std::alloc::Global;
use std::sync::{Arc, Wait};
use std::test::Fail;
use std::thread::join;

// A counter of at most 2^32 at its start.
#[derive(Drop)]
struct Counter {
    value: u64,
}

#[derive(Clone, Copy, PartialEq, Eq, Debug)]
enum CounterCall {
    Add(u64),
    Read,
}

impl CounterCall {
    // What it adds.
    fn amount(&self) -> u64
        ensures { result ≡ elim self.now [ Add n ↦ n | Read ↦ 0 ] }
    {
        match self {
            CounterCall::Add(amount) => *amount,
            CounterCall::Read => 0,
        }
    }
}

impl Sequential for Counter {
    type Key = u64;

    type Call = CounterCall;

    type Reply = u64;

    ghost after = { λ start counter calls. HasCounted (λ call. elim call [ Add n ↦ n | Read ↦ 0 ]) start counter.value calls };

    ghost legal = { λ start calls. AnswersValues (λ call. elim call [ Add n ↦ n | Read ↦ 0 ]) start calls };

    ghost fits = { λ start call. elim call [ Add n ↦ n | Read ↦ 0 ] ≤ 2 ^ 32 };

    fn apply(&mut self, call: &CounterCall) -> u64 {
        self.value += call.amount();
        self.value
    }

    ghost legal_from_the_start = { λ start. tt };
}

#[test]
fn one_pass_is_never_refused(rt: HostRuntime) -> Result<(), Fail> {
    let made = Share::new(rt.alloc(), Counter { value: 5 }, &5);
    let (share, mut pass) = made.ok().ok_or("memory")?;
    let first = share.try_call(&mut pass, &CounterCall::Add(7));
    let second = share.try_call(&mut pass, &CounterCall::Add(30));
    let third = share.try_call(&mut pass, &CounterCall::Read);
    check_eq(&rt, first, Answer::Done(12));
    check_eq(&rt, second, Answer::Done(42));
    check_eq(&rt, third, Answer::Done(42));
    let history = share.close(pass).ok().ok_or("a call is under way")?;
    check(&rt, history.len() == 3);
    let (call, reply) = history.get(1);
    check_eq(&rt, (*call, *reply), (CounterCall::Add(30), 42));
    Ok(())
}

// Adds 1 so many times.
fn add_ones(
    rt: &impl Wait,
    share: &Share<Counter>,
    mut pass: Pass<Counter>,
    times: u64,
) -> Pass<Counter>
    requires { BelongsTo pass share.now }
    ensures { BelongsTo result share.now }
{
    for _ in 0..times {
        let _ = share.call(rt, &mut pass, &CounterCall::Add(1));
    }
    pass
}

#[test]
fn two_threads_have_one_history(rt: HostRuntime) -> Result<(), Fail> {
    let made = Share::new(rt.alloc(), Counter { value: 0 }, &0);
    let (share, mut pass) = made.ok().ok_or("memory")?;
    let other = pass.split(&share);
    let (mut pass, mut other) = join(
        &rt,
        || add_ones(&rt, &share, pass, 100),
        || add_ones(&rt, &share, other, 100),
    );
    meet(&share, &mut pass, &mut other);
    check_eq(&rt, share.look(&mut other), 200);
    let history = share.close(pass).ok().ok_or("a call is under way")?;
    check(&rt, history.len() == 200);
    let (call, total) = history.get(199);
    check_eq(&rt, (*call, *total), (CounterCall::Add(1), 200));
    Ok(())
}

// Makes its first call when the other thread has its pass too, and says whether it met the other.
fn call_with_other(
    rt: &impl Wait,
    share: &Share<Counter>,
    mut pass: Pass<Counter>,
    own: &Signal,
    other: &Signal,
) -> (Pass<Counter>, bool)
    requires { BelongsTo pass share.now }
    ensures { BelongsTo result.0 share.now }
{
    own.announce();
    let met = other.wait();
    let _ = share.call(rt, &mut pass, &CounterCall::Add(1));
    (pass, met)
}

#[test]
fn first_calls_of_two_threads_meet(rt: HostRuntime) -> Result<(), Fail> {
    let made = Share::new(rt.alloc(), Counter { value: 0 }, &0);
    let (share, mut pass) = made.ok().ok_or("memory")?;
    let other = pass.split(&share);
    let (left, right) = (Signal::new(), Signal::new());
    let ((pass, left_met), (_, right_met)) = join(
        &rt,
        || call_with_other(&rt, &share, pass, &left, &right),
        || call_with_other(&rt, &share, other, &right, &left),
    );
    check(&rt, left_met && right_met);
    let history = share.close(pass).ok().ok_or("a call is under way")?;
    check_eq(&rt, history.len(), 2);
    Ok(())
}

// An object whose call announces that it is under way, and answers whether the other has tried meanwhile.
#[derive(Drop)]
struct Slow {
    under_way: Arc<Signal, Global>,
    tried: Arc<Signal, Global>,
}

impl Sequential for Slow {
    type Key = u8;

    type Call = u8;

    type Reply = bool;

    ghost after = { λ _ _ _. Unit {0} };

    ghost legal = { λ _ _. Unit {0} };

    ghost fits = { λ _ _. Unit {0} };

    fn apply(&mut self, _call: &u8) -> bool {
        self.under_way.announce();
        self.tried.wait()
    }

    ghost legal_from_the_start = { λ _. tt };
}

// Tries once while another call is under way.
fn try_meanwhile(
    share: &Share<Slow>,
    mut pass: Pass<Slow>,
    under_way: &Signal,
    tried: &Signal,
) -> (bool, Answer<bool>)
    requires { BelongsTo pass share.now }
{
    let met = under_way.wait();
    let answer = share.try_call(&mut pass, &0);
    tried.announce();
    (met, answer)
}

#[test]
fn a_try_is_busy_while_a_call_is_under_way(rt: HostRuntime) -> Result<(), Fail> {
    let under_way = Arc::new(rt.alloc(), Signal::new())?;
    let tried = Arc::new(rt.alloc(), Signal::new())?;
    let slow = Slow {
        under_way: Arc::try_clone(&under_way)?,
        tried: Arc::try_clone(&tried)?,
    };
    let made = Share::new(rt.alloc(), slow, &0);
    let (share, mut pass) = made.ok().ok_or("memory")?;
    let other = pass.split(&share);
    let (answer, (met, refused)) = join(
        &rt,
        || share.try_call(&mut pass, &0),
        || try_meanwhile(&share, other, &under_way, &tried),
    );
    check(&rt, met);
    check_eq(&rt, answer, Answer::Done(true));
    check_eq(&rt, refused, Answer::Busy { turn: 1 });
    Ok(())
}

#[test]
fn a_full_history_takes_no_call(rt: HostRuntime) -> Result<(), Fail> {
    let made = Share::new(rt.alloc(), Counter { value: 0 }, &0);
    let (share, pass) = made.ok().ok_or("memory")?;
    let mut pass = add_ones(&rt, &share, pass, 16_384);
    check_eq(
        &rt,
        share.try_call(&mut pass, &CounterCall::Read),
        Answer::Full,
    );
    check_eq(
        &rt,
        share.call(&rt, &mut pass, &CounterCall::Read),
        Answer::Full,
    );
    check_eq(&rt, share.look(&mut pass), 16_384);
    let history = share.close(pass).ok().ok_or("a call is under way")?;
    check_eq(&rt, history.len(), 16_384);
    Ok(())
}

// A value of this type may go to another thread.
fn crosses<T: Send>(value: T) -> T
    ensures { result ≡ value }
{
    value
}

// A value of this type may be seen by several threads.
fn is_shared<T: Sync>(_value: &T) {}

// A shared object and its passes may go to other threads where the object may.
fn all_cross<O: Sequential + Send>(share: Share<O>, pass: Pass<O>) -> (Share<O>, Pass<O>)
where
    O::Call: Send,
    O::Reply: Send,
{
    is_shared(&share);
    (crosses(share), crosses(pass))
}
