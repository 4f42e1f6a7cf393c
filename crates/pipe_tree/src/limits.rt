#![tactic(auto)]
//! What is counted while a text is read, and the limits of these counts.

ghost use Rattle.std.specs.Prelude.{◌≡◌};
ghost use Rattle.pipe_tree.specs.Limits.{counted};

/// Bytes that a text may have.
pub const MAX_BYTES: usize = 65536;

/// Levels of an expression that may be open at once.
pub const MAX_LEVELS: u32 = 64;

/// Nodes that all expressions of a text may have together.
pub const MAX_NODES: u32 = 4096;

/// Stages that a text may have: planes of the image, functions and accumulators.
pub const MAX_STAGES: u32 = 64;

/// Parameters that a text may have.
pub const MAX_PARAMS: u32 = 64;

/// Tables that a text may have.
pub const MAX_TABLES: u32 = 16;

/// Cases that a function may have.
pub const MAX_CASES: u32 = 16;

/// What a token counts as.
#[derive(Clone, Copy)]
pub enum Role {
    /// Nothing.
    Plain,
    /// It begins a node of an expression.
    Node,
    /// It names a stage.
    Stage,
    /// It names a parameter.
    Param,
    /// It names a table.
    Table,
    /// It begins a function, which has no cases yet.
    Function,
    /// It begins a case of the last function.
    Case,
}

/// The counts so far.
#[derive(Clone, Copy)]
pub struct TextCounts {
    pub nodes: u32,
    pub stages: u32,
    pub params: u32,
    pub tables: u32,
    /// The cases of the last function.
    pub cases: u32,
}

impl TextCounts {
    // With one more, unless that exceeds its limit.
    pub fn compute_counts_within_limits_after_role(self, role: Role) -> Option<TextCounts>
        ensures { result ≡ counted role self }
    {
        match role {
            Role::Plain => Some(self),
            Role::Node => (self.nodes < MAX_NODES).then(|| TextCounts {
                nodes: self.nodes + 1,
                ..self
            }),
            Role::Stage => (self.stages < MAX_STAGES).then(|| TextCounts {
                stages: self.stages + 1,
                ..self
            }),
            Role::Param => (self.params < MAX_PARAMS).then(|| TextCounts {
                params: self.params + 1,
                ..self
            }),
            Role::Table => (self.tables < MAX_TABLES).then(|| TextCounts {
                tables: self.tables + 1,
                ..self
            }),
            Role::Function => Some(TextCounts { cases: 0, ..self }),
            Role::Case => (self.cases < MAX_CASES).then(|| TextCounts {
                cases: self.cases + 1,
                ..self
            }),
        }
    }
}
