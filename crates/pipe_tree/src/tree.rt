#![tactic(auto)]
//! The content of a program's text: its items in order, with expressions as nodes.

ghost use Rattle.std.specs.Prelude.{◌≡◌};
ghost use Rattle.pipe_tree.specs.Tree.{cases_of, declarations};
ghost use Rattle.pipe_tree.specs.Sizes.{KeepsLimits};

use operators::{BinaryOp, LiteralOp, ReductionOp, Relation, TernaryOp, UnaryOp};
use pipe_tokens::Name;
use std::marker::Model;

/// A program. It keeps the limits of a text.
#[derive(Debug, Drop)]
pub struct Tree {
    items: Vec<Item>,
    ghost limits: { KeepsLimits (declarations items.items) },
}

impl Tree {
    ghost use Rattle.pipe_tree.specs.Content.{items_of};

    /// The program of these items.
    pub fn new(items: Vec<Item>) -> Self
        requires { KeepsLimits (declarations items.items) }
        ensures { items_of result ≡ items.items }
    {
        Tree { items }
    }

    /// The items in the order of the text.
    pub fn items(&self) -> &[Item]
        ensures { result.now ≡ items_of self.now }
    {
        &self.items
    }
}

/// One declaration.
#[derive(Debug, Drop)]
pub enum Item {
    Param(Param),
    Image(Image),
    Table(Table),
    Func(Func),
    Accum(Accum),
    Output(Output),
}

/// `param NAME;`: a number that is supplied when the program is run.
#[derive(Debug, Drop)]
pub struct Param {
    pub name: Name,
}

/// `image NAMES(ROWS, COLUMNS);`: the planes of the picture, and their sides.
#[derive(Debug, Drop)]
pub struct Image {
    pub names: Names,
    pub rows: Affine,
    pub columns: Affine,
}

/// `table NAME[FIRST .. LAST];`: a number for each index of a span. The numbers are supplied with the picture.
#[derive(Debug, Drop)]
pub struct Table {
    pub name: Name,
    pub span: AffineSpan,
}

/// `func NAME(ROW, COLUMN) { CASES else }`: a function on a rectangle. The value at a point is that of the first case that holds
/// there, else `otherwise`.
#[derive(Debug, Drop)]
pub struct Func {
    pub name: Name,
    pub row: Variable,
    pub column: Variable,
    pub cases: Cases,
    pub otherwise: Option<Expr>,
}

/// `accum NAME[BINS] over (ROW, COLUMN) FOLD VALUE at BIN;`: one number for each bin, over all points of a rectangle.
#[derive(Debug, Drop)]
pub struct Accum {
    pub name: Name,
    pub bins: AffineSpan,
    pub row: Variable,
    pub column: Variable,
    pub fold: ReductionOp,
    /// The value that a point adds to its bin.
    pub value: Expr,
    /// The bin of a point.
    pub bin: Expr,
}

/// `output NAMES max MAX;`: the functions that are the result's planes, and the picture's greatest sample.
#[derive(Debug, Drop)]
pub struct Output {
    pub names: Names,
    pub max: u32,
}

/// One name, or three for red, green and blue.
#[derive(Clone, Copy, Debug)]
pub enum Names {
    One(Name),
    Three(Name, Name, Name),
}

/// `NAME in [FIRST .. LAST]`: a variable and the numbers that it takes.
#[derive(Debug, Drop)]
pub struct Variable {
    pub name: Name,
    pub span: AffineSpan,
}

/// `[FIRST .. LAST]`, both ends included.
#[derive(Debug, Drop)]
pub struct AffineSpan {
    pub first: Affine,
    pub last: Affine,
}

/// A sum of terms, of which there is at least one. Contracts see the list of its terms.
#[derive(Debug, Drop)]
pub struct Affine {
    terms: Vec<AffineTerm>,
}

impl Model for Affine {
    ghost use Rattle.std.specs.Prelude.{List};
    ghost use Rattle.pipe_tree.specs.declared.tree.AffineTerm.{AffineTerm as TermType};

    ghost Value = { List TermType };

    ghost view = { λ a. a.terms.items };
}

impl Affine {
    /// The sum of these terms.
    pub fn new(terms: Vec<AffineTerm>) -> Self
        ensures { result ≡ terms.items }
    {
        Affine { terms }
    }

    /// The terms in the order of the text.
    pub fn terms(&self) -> &[AffineTerm]
        ensures { result.now ≡ self.now }
    {
        &self.terms
    }
}

/// `factor`, times the parameter `name` if there is one; subtracted if `negative`.
#[derive(Clone, Copy, Debug)]
pub struct AffineTerm {
    /// Whether a `-` comes before it.
    pub negative: bool,
    /// 1 where the text has a name alone.
    pub factor: u32,
    pub name: Option<Name>,
}

/// The cases of a function. Contracts see their list.
#[derive(Debug, Drop)]
pub struct Cases {
    cases: Vec<Case>,
}

impl Cases {
    /// These cases.
    pub fn new(cases: Vec<Case>) -> Self
        ensures { cases_of result ≡ cases.items }
    {
        Cases { cases }
    }

    /// The cases in the order of the text, at most 16.
    pub fn case_list(&self) -> &[Case]
        ensures { result.now ≡ cases_of self.now }
    {
        &self.cases
    }
}

/// `case CONDITION : VALUE;`
#[derive(Debug, Drop)]
pub struct Case {
    pub condition: Condition,
    pub value: Expr,
}

/// Tests that all hold, of which there is at least one. Contracts see their list.
#[derive(Debug, Drop)]
pub struct Condition {
    tests: Vec<Test>,
}

impl Model for Condition {
    ghost use Rattle.std.specs.Prelude.{List};
    ghost use Rattle.pipe_tree.specs.declared.tree.Test.{Test as TestType};

    ghost Value = { List TestType };

    ghost view = { λ c. c.tests.items };
}

impl Condition {
    /// These tests.
    pub fn new(tests: Vec<Test>) -> Self
        ensures { result ≡ tests.items }
    {
        Condition { tests }
    }

    /// The tests in the order of the text.
    pub fn tests(&self) -> &[Test]
        ensures { result.now ≡ self.now }
    {
        &self.tests
    }
}

/// A test of one variable.
#[derive(Debug, Drop)]
pub enum Test {
    /// `NAME <= BOUND`, `NAME >= BOUND` or `NAME == BOUND`.
    Compare(Name, Relation, Affine),
    /// `NAME % MODULUS == REMAINDER`.
    Remainder(Name, u32, u32),
}

/// A number at each point.
#[derive(Debug, Drop)]
pub enum Expr {
    /// From 0 to 2147483647.
    Number(u32),
    /// A variable or a parameter.
    Name(Name),
    /// `NAME(ROW, COLUMN)`: the value of a stage at another point.
    Read(Name, Index, Index),
    /// `NAME[INDEX]`: the entry of a table at an index.
    Lookup(Name, Box<Expr>),
    Unary(UnaryOp, Box<Expr>),
    Binary(BinaryOp, Box<Expr>, Box<Expr>),
    Ternary(TernaryOp, Box<Expr>, Box<Expr>, Box<Expr>),
    /// An operation whose right operand is a number of the text.
    Literal(LiteralOp, Box<Expr>, u32),
    /// `select(LEFT RELATION RIGHT, THEN, ELSE)`
    Select(Box<Expr>, Relation, Box<Expr>, Box<Expr>, Box<Expr>),
    /// `stencil(NAME, DIVISOR, KERNEL)`
    Stencil(Name, u32, Kernel),
}

/// `(MUL * NAME + ADD) / DIV`: one coordinate of a read.
#[derive(Clone, Copy, Debug)]
pub struct Index {
    /// 1 where the text has none.
    pub mul: u32,
    pub name: Name,
    /// 0 where the text has none.
    pub add: i32,
    /// 1 where the text has none.
    pub div: u32,
}

/// The weights of a stencil. Contracts see the list of its rows.
#[derive(Debug, Drop)]
pub struct Kernel {
    rows: Vec<StencilRow>,
}

impl Model for Kernel {
    ghost use Rattle.std.specs.Prelude.{List, ℤ};

    ghost Value = { List (List ℤ) };

    ghost view = { λ k. k.rows.items };
}

impl Kernel {
    /// The kernel of these rows.
    pub fn new(rows: Vec<StencilRow>) -> Self
        ensures { result ≡ rows.items }
    {
        Kernel { rows }
    }

    /// The rows in the order of the text, of which there is at least one. They need not be of one length.
    pub fn rows(&self) -> &[StencilRow]
        ensures { result.now ≡ self.now }
    {
        &self.rows
    }
}

/// One row of a kernel. Contracts see the list of its entries.
#[derive(Debug, Drop)]
pub struct StencilRow {
    entries: Vec<i32>,
}

impl Model for StencilRow {
    ghost use Rattle.std.specs.Prelude.{List, ℤ};

    ghost Value = { List ℤ };

    ghost view = { λ r. r.entries.items };
}

impl StencilRow {
    /// The row of these entries.
    pub fn new(entries: Vec<i32>) -> Self
        ensures { result ≡ entries.items }
    {
        StencilRow { entries }
    }

    /// The entries in the order of the text, of which there is at least one.
    pub fn entries(&self) -> &[i32]
        ensures { result.now ≡ self.now }
    {
        &self.entries
    }
}
