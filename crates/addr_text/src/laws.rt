ghost use Rattle.std.specs.Prelude.{◌≡◌, ℕ, List};
ghost use Rattle.prefixes.specs.Addr.{IsAddr};
ghost use Rattle.prefixes.specs.declared.addr.Addr.{Addr};
ghost use Rattle.prefixes.specs.declared.prefix.Prefix.{Prefix};
ghost use Rattle.addr_text.specs.Canonical.{canonical, canonical_prefix, groups_of, groups_text};
ghost use Rattle.addr_text.specs.Grammar.{Spells, SpellsPrefix};
ghost use Rattle.addr_text.specs.Recommended.{IsRecommended};

/// What is written spells what it is written for, so it is read as the same value.
pub fn what_is_written()
    ensures addr { (addr : Addr) → IsAddr addr → Spells (canonical addr) addr }
    ensures prefix { (prefix : Prefix) → IsAddr prefix.base →
        SpellsPrefix (canonical_prefix prefix) prefix }
{}

/// No text spells two addresses or two prefixes.
pub fn one_value()
    ensures addr { (text : List ℕ) (a b : Addr) → Spells text a → Spells text b → a ≡ b }
    ensures prefix { (text : List ℕ) (p q : Prefix) → SpellsPrefix text p → SpellsPrefix text q →
        (p.base ≡ q.base) × (p.len ≡ q.len) }
{}

/// What is written for groups is what RFC 5952 recommends, and it recommends one text.
pub fn recommended_text()
    ensures is { (groups : List ℕ) → IsRecommended groups (groups_text groups) }
    ensures one { (groups text other : List ℕ) → IsRecommended groups text →
        IsRecommended groups other → text ≡ other }
{}
