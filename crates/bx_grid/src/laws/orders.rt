//! What holds of the order in which ratios are tried. Nothing here runs.
ghost use Rattle.std.specs.Prelude.{◌≡◌, ℕ, ◌↔◌, List, [], ◌∷◌, length, Contains, AllPairs};
ghost use Rattle.bx_grid.specs.declared.ratio.Ratio.{Ratio};
ghost use Rattle.bx_grid.specs.declared.ratio.Limits.{Limits};
ghost use Rattle.bx_grid.specs.Orders.{IsWithin, Precedes, order, IsEarlier};

/// The order has every ratio within the limits and no other, each once, by area and then by width.
pub fn the_order_is_exact()
    ensures within { (limits : Limits) (ratio : Ratio) →
        Contains (order limits) ratio ↔ IsWithin limits ratio }
    ensures ascending { (limits : Limits) → AllPairs Precedes (order limits) }
{}

/// The earlier ratios are those within the limits that have less area, or the same and less width.
pub fn earlier_ratios_precede()
    ensures { (limits : Limits) (earlier ratio : Ratio) →
        IsEarlier limits earlier ratio ↔
        (IsWithin limits earlier × IsWithin limits ratio × Precedes earlier ratio) }
{}

/// The order of area 6.
pub fn the_order_of_area_six()
    ensures { order (record { area = 6; width = 144; height = 144 }) ≡
        (record { w = 1; h = 1 }) ∷ (record { w = 1; h = 2 }) ∷ (record { w = 2; h = 1 })
        ∷ (record { w = 1; h = 3 }) ∷ (record { w = 3; h = 1 })
        ∷ (record { w = 1; h = 4 }) ∷ (record { w = 2; h = 2 }) ∷ (record { w = 4; h = 1 })
        ∷ (record { w = 1; h = 5 }) ∷ (record { w = 5; h = 1 })
        ∷ (record { w = 1; h = 6 }) ∷ (record { w = 2; h = 3 }) ∷ (record { w = 3; h = 2 })
        ∷ (record { w = 6; h = 1 }) ∷ [] }
{}

/// With area 100 there are 482 ratios, and with area 144 there are 746.
pub fn how_many_ratios_there_are()
    ensures hundred { length (order (record { area = 100; width = 144; height = 144 })) ≡ 482 }
    ensures all { length (order (record { area = 144; width = 144; height = 144 })) ≡ 746 }
{}
