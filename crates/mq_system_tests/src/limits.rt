//! What is refused without waiting, and which message a receiver selects.

use crate::calls::{CREATE, Wanted, first};
use crate::day::config;
use crate::table::{Answer, Step, plays};
use mq_system::Errno;

#[test]
fn an_error_reports_how_much_had_happened(rt: HostRuntime) {
    let gone = Answer::Refused(Errno::EIDRM, Some(5));
    let never = Answer::Refused(Errno::EINVAL, Some(5));
    let untyped = Answer::Refused(Errno::EINVAL, None);
    let table: [(Step, Answer); 20] = [
        (Step::Remove(0), Answer::Refused(Errno::EINVAL, Some(0))),
        (Step::Get(5, CREATE), Answer::Id(0, Some(0))),
        (
            Step::Receive(0, first(9), b""),
            Answer::Refused(Errno::ENOMSG, Some(1)),
        ),
        (
            Step::Set(0, 131_073),
            Answer::Refused(Errno::EPERM, Some(1)),
        ),
        (Step::Set(0, 2), Answer::At(1)),
        (
            Step::Send(0, 1, b"abc"),
            Answer::Refused(Errno::EAGAIN, Some(2)),
        ),
        (Step::Send(0, 1, b"ab"), Answer::At(2)),
        (
            Step::Receive(0, first(1), b""),
            Answer::Refused(Errno::E2BIG, Some(3)),
        ),
        (Step::Stat(0), Answer::Shown(1, 2, 2)),
        (Step::Receive(0, first(2), b"ab"), Answer::Got(3, 1, 2)),
        (Step::Remove(0), Answer::Removed(4, 5)),
        (Step::Send(0, 1, b"ab"), gone),
        (Step::Receive(0, first(2), b""), gone),
        (Step::Set(0, 131_073), gone),
        (Step::Remove(0), gone),
        (Step::Send(64, 1, b"ab"), never),
        (Step::Receive(64, first(2), b""), never),
        (Step::Remove(u32::MAX - 63), never),
        // The type is checked before the id.
        (Step::Send(0, 0, b"ab"), untyped),
        (Step::Send(0, i64::MIN, b"ab"), untyped),
    ];
    plays(&rt, rt.alloc(), config(0, 1, 9), &table);
}

#[test]
fn each_flag_of_msgrcv_does_its_own(rt: HostRuntime) {
    let any = first(9);
    let except = Wanted {
        msgtyp: 1,
        except: true,
        ..any
    };
    let cut = Wanted {
        size: 1,
        msgtyp: 1,
        noerror: true,
        ..any
    };
    let short = Wanted {
        noerror: false,
        ..cut
    };
    let lowest = Wanted { msgtyp: -2, ..any };
    let table: [(Step, Answer); 11] = [
        (Step::Get(0, CREATE), Answer::Id(0, Some(0))),
        (Step::Send(0, 2, b"four"), Answer::At(1)),
        (Step::Send(0, 1, b"two"), Answer::At(2)),
        (Step::Send(0, 1, b"abc"), Answer::At(3)),
        (Step::Receive(0, lowest, b"two"), Answer::Got(4, 1, 3)),
        (
            Step::Receive(0, short, b""),
            Answer::Refused(Errno::E2BIG, Some(5)),
        ),
        (Step::Stat(0), Answer::Shown(2, 7, 131_072)),
        (Step::Receive(0, except, b"four"), Answer::Got(5, 2, 4)),
        (
            Step::Receive(0, except, b""),
            Answer::Refused(Errno::ENOMSG, Some(6)),
        ),
        (Step::Receive(0, cut, b"a"), Answer::Got(6, 1, 3)),
        (Step::Stat(0), Answer::Shown(0, 0, 131_072)),
    ];
    plays(&rt, rt.alloc(), config(2, 1, 9), &table);
}

#[test]
fn a_text_that_is_not_drafted_is_not_sent(rt: HostRuntime) {
    let too_long = Answer::Errno(Errno::EINVAL);
    let no_run = Answer::Errno(Errno::ENOMEM);
    let table: [(Step, Answer); 13] = [
        (Step::Get(0, CREATE), Answer::Id(0, Some(0))),
        (Step::Draft(65_537), too_long),
        (Step::Draft(u64::MAX), too_long),
        (Step::Draft(65_536), no_run),
        (Step::Draft(8193), no_run),
        (Step::Draft(8192), no_run),
        (Step::Draft(1024), Answer::Drafted),
        (Step::Send(0, 1, b"x"), Answer::At(1)),
        (Step::Draft(1), no_run),
        (Step::Draft(0), Answer::Drafted),
        (Step::Send(0, 1, b"x"), no_run),
        (Step::Send(0, 1, b""), Answer::At(2)),
        (Step::Stat(0), Answer::Shown(2, 1, 131_072)),
    ];
    plays(&rt, rt.alloc(), config(0, 1, 9), &table);
    let eight_pages: [(Step, Answer); 3] = [
        (Step::Draft(65_537), too_long),
        (Step::Draft(8193), no_run),
        (Step::Draft(8192), Answer::Drafted),
    ];
    plays(&rt, rt.alloc(), config(3, 1, 9), &eight_pages);
    let whole: [(Step, Answer); 3] = [
        (Step::Draft(65_537), too_long),
        (Step::Draft(65_536), Answer::Drafted),
        (Step::Draft(8193), Answer::Drafted),
    ];
    plays(&rt, rt.alloc(), config(6, 1, 9), &whole);
}
