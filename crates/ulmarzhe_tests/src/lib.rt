// Tests of what the library offers to other crates, and neither C nor the program calls.
#![tactic(auto)]

#[cfg(test)]
mod tests {
    use header::Header;
    use wire::Halfwords;
    use wire::refusal::Refusal;

    // The values of a message of type 3 with no data, the second of two segments.
    const GIVEN: Header = Header {
        size: Halfwords(8),
        channel: 0,
        kind: 3,
        sequence: 0,
        date: 1,
        milliseconds: 86399999,
        segments: 2,
        number: 2,
    };

    fn number_of(h: Header) -> u8 {
        header::check_header(header::as_stored(h), 16).map_or_else(Refusal::number, |()| 0)
    }

    // Each value that has a rule is taken out of it, one at a time; the size is then one that no message can hold.
    #[test]
    fn asks_the_checks_about_values(rt: HostRuntime) {
        let (size, segments, milliseconds) = (Halfwords(65544), 129, 86400000);
        assert!(rt; number_of(GIVEN) == 0);
        assert!(rt; number_of(Header { size, ..GIVEN }) == 5);
        assert!(rt; number_of(Header { kind: 14, ..GIVEN }) == 6);
        assert!(rt; number_of(Header { segments, ..GIVEN }) == 7);
        assert!(rt; number_of(Header { number: 3, ..GIVEN }) == 7);
        assert!(rt; number_of(Header { date: 0, ..GIVEN }) == 8);
        assert!(rt;
            number_of(Header {
                milliseconds,
                ..GIVEN
            }) == 8
        );
    }
}
