use outlet::{Kind, NumberOutlet, Outlet, Refusal};

// An outlet around another: what the trait asks for, and no more.
#[derive(Drop)]
struct Wrapped<O> {
    inner: O,
}

impl<O: Outlet> Outlet for Wrapped<O> {
    ghost means = { λ w. O.means w.inner };

    ghost fitting = { λ w. O.fitting w.inner };

    ghost keeps = { λ w v. O.keeps w.inner v.inner };

    ghost laws = { record {
      one_list = λ w. O.laws.one_list w.inner;
      keeps_none = λ w. O.laws.keeps_none w.inner;
      keeps_more = λ u v w. O.laws.keeps_more u.inner v.inner w.inner;
    } };

    fn fits(&self, kind: Kind, lits: &[i32]) -> bool {
        self.inner.fits(kind, lits)
    }

    fn put(&mut self, kind: Kind, lits: &[i32]) -> Result<(), Refusal> {
        self.inner.put(kind, lits)
    }
}

// What a put answers, where `fits` told it before.
fn answered<O: Outlet>(out: &mut O, kind: Kind, lits: &[i32]) -> Option<Result<(), Refusal>> {
    let fits = out.fits(kind, lits);
    let answer = out.put(kind, lits);
    (fits == answer.is_ok()).then_some(answer)
}

#[test]
fn an_outlet_around_another(rt: HostRuntime) {
    let mut memory = [7i32; 5];
    let mut out = Wrapped {
        inner: NumberOutlet::new(&mut memory),
    };
    assert!(rt; answered(&mut out, Kind::Learnt, &[1, -2]) == Some(Ok(())));
    assert!(rt; answered(&mut out, Kind::Cube, &[]) == Some(Err(Refusal::NoRoom)));
    assert!(rt; out.inner.as_slice() == [2, 2, 1, -2].as_slice());
}
