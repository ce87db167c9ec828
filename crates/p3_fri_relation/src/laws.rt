//! Laws as calls that give nothing and whose contracts are theorems over the definitions.

ghost use Rattle.p3_fri_relation.specs.Example.{IsExample};

/// In a small setting the relation holds of an honest proof, and of none with another sibling.
pub fn relation_example_law()
    ensures { IsExample }
{}
