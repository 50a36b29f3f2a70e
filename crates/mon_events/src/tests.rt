use crate::{
    BadEvent, Event, EventSet, UnknownName, normal_global, normal_local, set_of_names, single,
};

#[test]
fn sets_are_read_from_names_and_digits(rt: HostRuntime) {
    let table = [
        ("LINE", Some(128)),
        ("LINE|LINE", Some(128)),
        ("CALL|C_RETURN", Some(10)),
        ("BRANCH|STOP_ITERATION", Some(65537)),
        ("0", Some(0)),
        ("0000000000000000000128", Some(128)),
        ("4294967295", Some(4294967295)),
        ("4294967296", None),
        ("99999999999999999999999999", None),
        ("", None),
        ("|", None),
        ("LINE|", None),
        ("LINE|128", None),
        ("line", None),
        (" LINE", None),
        ("LINES", None),
        ("+1", None),
    ];
    for (words, set) in table {
        let due = match set {
            Some(bits) => Ok(EventSet(bits)),
            None => Err(UnknownName),
        };
        assert!(rt; set_of_names(words) == due);
    }
}

#[test]
fn sets_are_kept_in_normal_form(rt: HostRuntime) {
    // the set, and what is kept of it everywhere and in one code
    let table = [
        (0, Some(0), Some(0)),
        (128, Some(128), Some(128)),
        (8, None, None),
        (10, None, None),
        (12, None, None),
        (14, Some(2), Some(2)),
        (142, Some(130), Some(130)),
        (16384, Some(16384), None),
        (131071, Some(131059), None),
        (131072, None, None),
        (1048576, None, None),
        (75747, Some(75747), Some(75747)),
    ];
    for (bits, everywhere, local) in table {
        let set = EventSet(bits);
        assert!(rt; normal_global(set) == everywhere.map(EventSet).ok_or(BadEvent(set)));
        assert!(rt; normal_local(set) == local.map(EventSet).ok_or(BadEvent(set)));
    }
}

#[test]
fn a_set_of_one_event_is_found(rt: HostRuntime) {
    assert!(rt; single(EventSet(16384)) == Some(Event::Raise));
    assert!(rt; single(EventSet(65536)) == Some(Event::StopIteration));
    assert!(rt; single(EventSet(131072)) == None);
    assert!(rt; single(EventSet(130)) == None);
    assert!(rt; single(EventSet(0)) == None);
}
