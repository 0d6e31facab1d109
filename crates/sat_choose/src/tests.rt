use crate::{Chooser, Fixed};
use cnf_form::Lit;
use std::process::Abort;
use std::test::Fail;

/// Begins over three variables, tells of a clause, and asks.
fn asked(chooser: &mut dyn Chooser) -> Option<Lit> {
    if chooser.begin(3).is_err() {
        return None;
    }
    chooser.learnt(&[Lit {
        var: 2,
        positive: true,
    }]);
    chooser.pick()
}

#[test]
fn fixed_never_picks(rt: HostRuntime) -> Result<(), Fail> {
    let mut fixed = Fixed::new();
    assert!(rt; fixed.begin(2).is_ok());
    assert_eq!(rt; asked(&mut fixed), None);
    assert_eq!(rt; fixed.pick(), None);
    Ok(())
}
