//! The files of one entry in every order.
use super::stories::first_other_under;
use std::test::Fail;

// The entry after its five files, and then before them in each of their hundred and twenty orders,
// which another program listed.
const ORDERS: &str = "new A B C D E +each
new +each A B C D E
new +each A B C E D
new +each A B D C E
new +each A B D E C
new +each A B E C D
new +each A B E D C
new +each A C B D E
new +each A C B E D
new +each A C D B E
new +each A C D E B
new +each A C E B D
new +each A C E D B
new +each A D B C E
new +each A D B E C
new +each A D C B E
new +each A D C E B
new +each A D E B C
new +each A D E C B
new +each A E B C D
new +each A E B D C
new +each A E C B D
new +each A E C D B
new +each A E D B C
new +each A E D C B
new +each B A C D E
new +each B A C E D
new +each B A D C E
new +each B A D E C
new +each B A E C D
new +each B A E D C
new +each B C A D E
new +each B C A E D
new +each B C D A E
new +each B C D E A
new +each B C E A D
new +each B C E D A
new +each B D A C E
new +each B D A E C
new +each B D C A E
new +each B D C E A
new +each B D E A C
new +each B D E C A
new +each B E A C D
new +each B E A D C
new +each B E C A D
new +each B E C D A
new +each B E D A C
new +each B E D C A
new +each C A B D E
new +each C A B E D
new +each C A D B E
new +each C A D E B
new +each C A E B D
new +each C A E D B
new +each C B A D E
new +each C B A E D
new +each C B D A E
new +each C B D E A
new +each C B E A D
new +each C B E D A
new +each C D A B E
new +each C D A E B
new +each C D B A E
new +each C D B E A
new +each C D E A B
new +each C D E B A
new +each C E A B D
new +each C E A D B
new +each C E B A D
new +each C E B D A
new +each C E D A B
new +each C E D B A
new +each D A B C E
new +each D A B E C
new +each D A C B E
new +each D A C E B
new +each D A E B C
new +each D A E C B
new +each D B A C E
new +each D B A E C
new +each D B C A E
new +each D B C E A
new +each D B E A C
new +each D B E C A
new +each D C A B E
new +each D C A E B
new +each D C B A E
new +each D C B E A
new +each D C E A B
new +each D C E B A
new +each D E A B C
new +each D E A C B
new +each D E B A C
new +each D E B C A
new +each D E C A B
new +each D E C B A
new +each E A B C D
new +each E A B D C
new +each E A C B D
new +each E A C D B
new +each E A D B C
new +each E A D C B
new +each E B A C D
new +each E B A D C
new +each E B C A D
new +each E B C D A
new +each E B D A C
new +each E B D C A
new +each E C A B D
new +each E C A D B
new +each E C B A D
new +each E C B D A
new +each E C D A B
new +each E C D B A
new +each E D A B C
new +each E D A C B
new +each E D B A C
new +each E D B C A
new +each E D C A B
new +each E D C B A";

// All files are read, none is wanted, and each suffix has its operation.
const KNOWN: &str =
    "entry 0 read read read read read|wanted none|operations a 1|operations b 1|operations c 1|operations d 1";

// In every order of the files the result is that of the definition, which has all files before the
// entry.
#[test]
fn files_may_come_in_every_order(rt: HostRuntime) -> Result<(), Fail> {
    match first_other_under(&rt, ORDERS, KNOWN) {
        Some(order) => Err(Fail::from(order)),
        None => Ok(()),
    }
}
