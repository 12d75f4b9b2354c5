//! Orders in which ready gates are taken.
ghost use Rattle.std.specs.Prelude.{◌≡◌, Bool, true, false, ◌==◌, ◌<◌};
ghost use Rattle.sc_sched.specs.Orders.{by_height, by_through};
ghost use Rattle.sc_sched.specs.Laws.{greater_irreflexive, greater_transitive, greater_total};

/// The weight of the heaviest chain that starts at a gate, of the heaviest one that holds it, and its position.
#[derive(Clone, Copy)]
pub struct Rank {
    pub height: u64,
    pub through: u64,
    pub position: u32,
}

/// An order of ranks: irreflexive, transitive, and of two ranks with different positions exactly one is before the other.
pub trait Priority {
    ghost use Rattle.sc_sched.specs.declared.order.Rank.{Rank};

    ghost comes: { Self → Rank → Rank → Bool };

    /// Whether a gate of rank `a` is taken before one of rank `b`.
    fn before(&self, a: &Rank, b: &Rank) -> bool
        ensures { result ≡ comes self.now a.now b.now };

    ghost irreflexive: { (o : Self) (a : Rank) → comes o a a ≡ false };

    ghost transitive: { (o : Self) (a b c : Rank) → comes o a b ≡ true → comes o b c ≡ true → comes o a c ≡ true };

    ghost total: { (o : Self) (a b : Rank) → comes o a b ≡ false → comes o b a ≡ false → a.position ≡ b.position };
}

/// The order of the greater height first, then the lower position.
pub struct Rcp;

impl Priority for Rcp {
    ghost comes = { λ o a b. by_height a b };

    fn before(&self, a: &Rank, b: &Rank) -> bool {
        b.height < a.height || (a.height == b.height && a.position < b.position)
    }

    ghost irreflexive = { λ o a. greater_irreflexive a.height a.position };

    ghost transitive = { λ o a b c h k. greater_transitive a.height a.position b.height b.position c.height c.position h k };

    ghost total = { λ o a b h k. greater_total a.height a.position b.height b.position h k };
}

/// The greater `through` first, then the lower position.
pub struct Lpfs;

impl Priority for Lpfs {
    ghost comes = { λ o a b. by_through a b };

    fn before(&self, a: &Rank, b: &Rank) -> bool {
        b.through < a.through || (a.through == b.through && a.position < b.position)
    }

    ghost irreflexive = { λ o a. greater_irreflexive a.through a.position };

    ghost transitive = { λ o a b c h k. greater_transitive a.through a.position b.through b.position c.through c.position h k };

    ghost total = { λ o a b h k. greater_total a.through a.position b.through b.position h k };
}
