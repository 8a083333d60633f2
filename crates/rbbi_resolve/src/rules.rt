//! The active rules of a rule file, with their variables replaced.
ghost use Rattle.std.specs.Prelude.{◌≡◌, ◌<◌, length, map, slice_get, sum_by};
ghost use Rattle.std.specs.Rc.{rc_value};
ghost use Rattle.rbbi_classes.specs.CharacterSets.{characters_of};
ghost use Rattle.rbbi_classes.specs.Divisions.{IsDivision};
ghost use Rattle.rbbi_model.specs.Rules.{leaves_of, look_aheads};
ghost use Rattle.rbbi_resolve.specs.RuleLists.{rules_of, AreWellFormed, AreCounted};
ghost use Rattle.rbbi_resolve.specs.SetRows.{AreByClasses};

use rbbi_classes::{ClassSet, Division};
use rbbi_tree::Quant;
use std::marker::Model;
use std::rc::Rc;

/// What a rule matches, with its variables replaced.
///
/// A tree is at most as high as its rule, so it has at most 257 levels, and a walk over it opens no
/// more.
#[derive(Drop)]
#[cycle(tree)]
pub enum Tree {
    /// One character of the set with this number in the list of sets.
    Leaf(u32),
    /// Parts that follow one another, at least one.
    Seq(Trees),
    /// One of the parts, at least one.
    Alt(Trees),
    /// A part that is repeated.
    Rep(Quant, Box<Tree>),
}

/// Parts of a sequence or a choice, from first to last.
#[derive(Drop)]
#[cycle(tree)]
pub struct Trees {
    pub items: Vec<Tree>,
}

/// An active rule of a rule file.
#[derive(Drop)]
pub struct Rule {
    /// What it matches, up to the `/` if there is one.
    pub front: Tree,
    /// What it matches after the `/`.
    pub rest: Option<Tree>,
    /// Whether a match may go on with this rule from its last character on.
    pub chained_into: bool,
    /// The status number.
    pub tag: Option<u32>,
    /// The place of its first token, in characters from 0.
    pub place: u32,
}

/// The sets of the leaves of rules. Contracts see it as the list of their lists of ranges.
#[derive(Drop)]
pub struct SetList {
    /// The partition of the code points of which each set has some classes.
    division: Rc<Division>,
    /// Of each set its classes.
    rows: Vec<ClassSet>,
}

impl Model for SetList {
    ghost use Rattle.std.specs.Prelude.{List, map};
    ghost use Rattle.rbbi_model.specs.Ranges.{Range};

    ghost Value = { List (List Range) };

    ghost use Rattle.std.specs.Rc.{rc_value};
    ghost use Rattle.rbbi_classes.specs.CharacterSets.{characters_of};
    ghost use Rattle.rbbi_classes.specs.Divisions.{IsDivision};

    ghost view = { λ sets. map (characters_of (rc_value sets.division)) sets.rows.items };

    ghost invariant = { λ sets. IsDivision (rc_value sets.division) };
}

impl SetList {
    /// The sets with these classes of a partition.
    pub(crate) fn of_rows(division: Rc<Division>, rows: Vec<ClassSet>) -> SetList
        requires { IsDivision (rc_value division) }
        ensures { result ≡ map (characters_of (rc_value division)) rows.items }
    {
        SetList { division, rows }
    }

    /// The partition of the code points of which each set has some classes, and of each set the
    /// row of these classes, in the order of the sets. A row may have classes of surrogates, which
    /// the set lacks.
    pub fn by_classes(&self) -> (&Division, &[ClassSet])
        ensures { AreByClasses result.0.now result.1.now self.now }
    {
        (self.division.as_ref(), self.rows.as_slice())
    }

    /// The number of sets.
    pub fn len(&self) -> usize
        ensures { result ≡ length self.now }
    {
        self.rows.len()
    }
}

/// The active rules of a rule file in their order, with the sets of their leaves, and the counts of
/// leaves and of rules with a rest. Contracts see the rules and the sets; `rules_of` gives the list
/// of rules that they stand for.
#[derive(Drop)]
pub struct Rules {
    rules: Vec<Rule>,
    sets: SetList,
    leaves: u32,
    slashes: u32,
}

impl Model for Rules {
    ghost use Rattle.std.specs.Coded.{codes, coded×, coded_list, code_by};
    ghost use Rattle.rbbi_resolve.specs.contracts.rules.Rule as rule;
    ghost use Rattle.rbbi_resolve.specs.RuleLists.{RuleList, AreCounted};

    ghost Value = { RuleList };

    ghost coded = { Prim.hlevel (codes, rule.the_row.coded) };

    ghost view = { λ rules. record { rules = rules.rules.items; sets = rules.sets } };

    ghost invariant = { λ rules.
        AreCounted (record { rules = rules.rules.items; sets = rules.sets }) rules.leaves
        rules.slashes };
}

impl Rules {
    /// These rules with these sets, and so many leaves and rules with a rest.
    pub(crate) fn new(rules: Vec<Rule>, sets: SetList, leaves: u32, slashes: u32) -> Rules
        requires { AreCounted (record { rules = rules.items; sets = sets }) leaves slashes }
        ensures { result ≡ record { rules = rules.items; sets = sets } }
    {
        Rules {
            rules,
            sets,
            leaves,
            slashes,
        }
    }

    /// The number of rules.
    pub fn len(&self) -> usize
        ensures value { result ≡ length self.now.rules }
        ensures form { AreWellFormed self.now }
    {
        self.rules.len()
    }

    /// The rule with this number, from 0.
    pub fn get(&self, i: usize) -> &Rule
        requires { i < length self.now.rules }
        ensures { slice_get self.now.rules i ≡ Some result.now }
    {
        &self.rules[i]
    }

    /// The sets of the leaves. A leaf has the number of its set here, and each set is that of a
    /// leaf.
    pub fn sets(&self) -> &SetList
        ensures value { result.now ≡ self.now.sets }
        ensures form { AreWellFormed self.now }
    {
        &self.sets
    }

    /// The number of leaves of all rules.
    pub fn leaves(&self) -> u32
        ensures { result ≡ sum_by leaves_of (rules_of self.now) }
    {
        self.leaves
    }

    /// The number of rules with a rest.
    pub fn slashes(&self) -> u32
        ensures { result ≡ length (look_aheads (rules_of self.now)) }
    {
        self.slashes
    }
}
