//! The orders on values worked by hand, and Euclid on a few numbers.
#![tactic(auto)]

#[cfg(test)]
mod tests {
    use order::shuffled::Shuffled;
    use order::stride::gcd;
    use order::trying::{Order, places};
    use order::written::Written;

    #[test]
    fn divisors(rt: HostRuntime) {
        for (a, b, want) in [
            (12, 18, 6),
            (18, 12, 6),
            (7, 8, 1),
            (0, 5, 5),
            (5, 0, 5),
            (0, 0, 0),
            (4096, 4095, 1),
        ] {
            assert_eq!(rt; gcd(a, b), want);
        }
    }

    #[test]
    fn written(rt: HostRuntime) {
        let mut o = Written;
        o.step();
        // Past 4,096 things, or at a try that is not below their number, the answer is 0.
        for (n, k, want) in [
            (1, 0, 0),
            (2, 1, 1),
            (4096, 4095, 4095),
            (4097, 7, 0),
            (5, 5, 0),
            (0, 0, 0),
        ] {
            assert_eq!(rt; o.place(n, k), want);
            assert_eq!(rt; <Written as Order>::at(o.row(n), k), want);
        }
    }

    // With s = q * 65536 + .., h is 1 + q mod n, and the place is (s + k * g) mod n:
    //   s = 0:                 q = 0, so h = g = 1 for every n, and the place is k.
    //   s = 65537, n = 2:      q = 1, h = 2, 2 is even: g = 1. s is odd: 1, 0.
    //   s = 196608, n = 9:     q = 3, h = 4 = g. s = 9 * 21845 + 3: 3, 7, 11 - 9 = 2, ..
    //   s = 327680, n = 12:    q = 5, h = 6, 6 has 2 in common: g = 5. s = 12 * 27306 + 8: 8, 13 - 12 = 1, 6, ..
    //   s = 327680, n = 30:    h = 6, and 6 to 2 have 2, 3 or 5 in common: g = 1. s = 30 * 10922 + 20: 20, 21, .. 29, 0, ..
    //   s = 4294967295, 4096:  q = 65535 = 15 * 4096 + 4095, h = 4096, even: g = 4095, which is a step back. s is 4095 modulo n: 4095 - k.
    //   n = 1: all is 0. n = 0, n = 4097 and k = n are out of range: 0.
    #[test]
    fn shuffled(rt: HostRuntime) {
        for (seed, n, k, want) in [
            (0, 5, 3, 3),
            (65537, 2, 0, 1),
            (65537, 2, 1, 0),
            (196608, 9, 2, 2),
            (196608, 9, 8, 8),
            (327680, 12, 1, 1),
            (327680, 12, 11, 3),
            (327680, 30, 10, 0),
            (4294967295, 4096, 0, 4095),
            (4294967295, 4096, 4095, 0),
            (4294967295, 1, 0, 0),
            (4294967295, 0, 0, 0),
            (4294967295, 4097, 1, 0),
            (4294967295, 10, 10, 0),
        ] {
            let o = Shuffled { seed };
            assert_eq!(rt; o.place(n, k), want);
            assert_eq!(rt; <Shuffled as Order>::at(o.row(n), k), want);
        }
    }

    // 0 goes to 1013904223, with q = 15470 = 8 * 1933 + 6: h = 7 = g, and s = 8 * 126738027 + 7: 7, 14 - 8 = 6, ..
    // That goes to 1664526 * 1013904223 = 392941 * 4294967296 + 1196435762, with q = 18256 = 6 * 3042 + 4:
    // h = 5 = g among 6, and s = 6 * 199405960 + 2: 2, 7 - 6 = 1, 0, 5, ..
    #[test]
    fn steps(rt: HostRuntime) {
        let mut o = Shuffled { seed: 0 };
        o.step();
        let mut eight = [9; 8];
        places(&o, &mut eight);
        assert_eq!(rt; eight, [7, 6, 5, 4, 3, 2, 1, 0]);
        o.step();
        assert_eq!(rt; o.seed, 1196435762);
        let mut six = [9; 6];
        places(&o, &mut six);
        assert_eq!(rt; six, [2, 1, 0, 5, 4, 3]);
    }
}
