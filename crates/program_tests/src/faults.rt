//! One connection with a request of each kind: in pieces, cut short, and over sources and sinks that fail.

use crate::calls::{WHOLE, assert_run, calls_of, failing_at, pipe_over, run_over};
use crate::script::{empty_page, input_of, is_between, replies_of, run_script, steps_of};
use crate::texts::joined;
use crate::worked::{FOUND, GET, PUT, STORED, USAGE};
use quaestor_prog::Status;
use std::test::Fail;

#[test]
fn requests_of_each_kind_are_answered_in_whatever_pieces(rt: HostRuntime) -> Result<(), Fail> {
    let page = empty_page(rt.alloc())?;
    let steps = steps_of(&page);
    let input = input_of(rt.alloc(), &steps)?;
    let replies = replies_of(rt.alloc(), &steps, input.len())?;
    for size in [1, 2, 7, WHOLE] {
        for other in [1, 2, 7, WHOLE] {
            let outcome = run_script(&rt, &input, calls_of(size), replies.len(), calls_of(other))?;
            assert_run(&rt, &outcome, Status::Done, &replies, size);
        }
    }
    Ok(())
}

#[test]
fn a_cut_input_is_answered_up_to_its_last_whole_request(rt: HostRuntime) -> Result<(), Fail> {
    let page = empty_page(rt.alloc())?;
    let steps = steps_of(&page);
    let input = input_of(rt.alloc(), &steps)?;
    for cut in 0..=input.len() {
        let replies = replies_of(rt.alloc(), &steps, cut)?;
        let status = if is_between(&steps, cut) {
            Status::Done
        } else {
            Status::BadInput
        };
        let all = calls_of(WHOLE);
        let outcome = run_script(&rt, &input[..cut], all, replies.len(), all)?;
        assert_run(&rt, &outcome, status, &replies, cut);
    }
    Ok(())
}

/// Each call of the source fails, until a run has no fault.
#[test]
fn a_source_that_fails_ends_the_run(rt: HostRuntime) -> Result<(), Fail> {
    let page = empty_page(rt.alloc())?;
    let steps = steps_of(&page);
    let input = input_of(rt.alloc(), &steps)?;
    let replies = replies_of(rt.alloc(), &steps, input.len())?;
    for size in [1, 7, WHOLE] {
        let pieces = input.len() / size;
        let mut whole = false;
        for call in 0..1_000_usize {
            let takes = failing_at(call, size);
            let outcome = run_script(&rt, &input, takes, replies.len(), calls_of(7))?;
            if outcome.status == Status::Done {
                assert_eq!(rt; outcome.written.as_slice(), replies.as_slice(), "at {call}");
                assert!(rt; call > pieces, "at {call}");
                whole = true;
                break;
            }
            assert_eq!(rt; outcome.status, Status::ReadFault, "at {call}");
            let taken = call.saturating_mul(size);
            let most = replies_of(rt.alloc(), &steps, taken)?;
            assert!(rt; most.starts_with(&outcome.written), "at {call}");
            assert!(rt; size > 1 || outcome.written == most, "at {call}");
        }
        assert!(rt; whole, "in pieces of {size}");
    }
    Ok(())
}

/// Each call of the sink fails, until a run has no fault.
#[test]
fn a_sink_that_fails_ends_the_run(rt: HostRuntime) -> Result<(), Fail> {
    let page = empty_page(rt.alloc())?;
    let steps = steps_of(&page);
    let input = input_of(rt.alloc(), &steps)?;
    let replies = replies_of(rt.alloc(), &steps, input.len())?;
    for size in [7, WHOLE] {
        let mut whole = false;
        for call in 0..1_000_usize {
            let gives = failing_at(call, size);
            let outcome = run_script(&rt, &input, calls_of(WHOLE), replies.len(), gives)?;
            let count = outcome.written.len();
            assert!(rt; replies.starts_with(&outcome.written), "at {call}");
            if count == replies.len() {
                assert_eq!(rt; outcome.status, Status::Done, "at {call}");
                whole = true;
                break;
            }
            assert_eq!(rt; outcome.status, Status::WriteFault, "at {call}");
            assert!(rt;
                call <= count && count <= call.saturating_mul(size),
                "at {call}"
            );
        }
        assert!(rt; whole, "in pieces of {size}");
    }
    Ok(())
}

#[test]
fn a_sink_takes_what_it_has_capacity_for(rt: HostRuntime) -> Result<(), Fail> {
    let input = joined(rt.alloc(), PUT, GET)?;
    let replies = joined(rt.alloc(), STORED, FOUND)?;
    for capacity in 0..replies.len() {
        let outcome = pipe_over(&rt, &input, calls_of(WHOLE), capacity, calls_of(WHOLE))?;
        assert_run(
            &rt,
            &outcome,
            Status::WriteFault,
            &replies[..capacity],
            capacity,
        );
    }
    Ok(())
}

#[test]
fn a_sink_takes_as_much_of_the_usage_line_as_it_has_capacity_for(
    rt: HostRuntime,
) -> Result<(), Fail> {
    for capacity in 0..=USAGE.len() {
        let refused = run_over(
            &rt,
            &["serve"],
            PUT,
            calls_of(WHOLE),
            capacity,
            calls_of(WHOLE),
        )?;
        let status = if capacity < USAGE.len() {
            Status::WriteFault
        } else {
            Status::Words
        };
        let written = USAGE.get(..capacity).unwrap_or(USAGE);
        assert_run(&rt, &refused, status, written, capacity);
    }
    Ok(())
}
