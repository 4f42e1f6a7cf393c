//! Programs that are bound to pictures.

ghost use Rattle.std.specs.Prelude.{◌≡◌, List, [], ◌∷◌, map, pos, Some, None, codes};
ghost use Rattle.std.specs.List.{flat_map};
ghost use Rattle.domains.specs.Sides.{Sides, IsSides};
ghost use Rattle.netpbm.specs.Image.{Image as Picture, IsImage};
ghost use Rattle.pipe_tree.specs.Sizes.{KeepsLimits};
ghost use Rattle.pipe_tree.specs.Tree.{Declaration};
ghost use Rattle.pipe_bounds.specs.declared.params.Setting.{Setting};
ghost use Rattle.pipe_checks.specs.Names.{stages_of};
ghost use Rattle.job.specs.Answers.{image};
ghost use Rattle.job.specs.Pipeline.{Pipeline};
ghost use Rattle.tables.specs.declared.table.Table.{Table};
ghost use Rattle.binding.specs.Binding.{Program, AreSmall, AreSmallTables, settings_for, item_stages, IsJobOf};
ghost use Rattle.binding.specs.Fits.{PlanesFit, ExtentsFit, ShapesFit, TilesFit};
ghost use Rattle.pipe_bounds.specs.InBounds.{IsInBounds};
ghost use Rattle.job.specs.WellFormed.{IsSmall, IsJob};
ghost use Rattle.binding.specs.Texts.{copying, unset, two_by_two, copy, square, twice_as_high, one_by_two, setting, planes};
ghost use Rattle.job.specs.Worked.{sides as sides_of};

/// The stages of a job are those that its program declares, in this order.
pub fn bind_keeps_stage_names_and_order()
    ensures { (p : Program) (items : List Declaration)
        → map (λ s. s.name) (flat_map (item_stages p) items) ≡ map (λ d. d.name) (stages_of items) }
{}

/// Parameters without values are the sides of the picture. The job answers the picture that was supplied.
pub fn copies_bind_to_two_by_two_pictures()
    ensures binds { IsJobOf copying unset [] two_by_two (sides_of 64 64) copy }
    ensures answers { image copy ≡ Some two_by_two }
{}

/// A parameter without a value is a side of the picture, its rows before its columns, if an extent is exactly this parameter.
/// Supplied values stay.
pub fn bind_takes_parameters_from_sides()
    ensures rows_first { settings_for square one_by_two (setting 78 None)
        ≡ setting 78 (Some (pos 1)) }
    ensures alone { settings_for twice_as_high one_by_two (setting 78 None)
        ≡ setting 78 (Some (pos 2)) }
    ensures given { settings_for square one_by_two (setting 78 (Some (pos 5)))
        ≡ setting 78 (Some (pos 5)) }
    ensures other { settings_for square one_by_two (setting 77 None) ≡ setting 77 None }
    ensures both { settings_for planes one_by_two unset
        ≡ record { name = codes "R"; value = Some (pos 1) }
        ∷ record { name = codes "C"; value = Some (pos 2) } ∷ [] }
{}

/// A program specifies at most one job. The job is well-formed if the program keeps the limits of a text, and supplied values and
/// entries are numbers of 32 bits. All must be in bounds; and the picture, the sides of tiles, the shapes of the output and the
/// numbers of tiles must fit.
pub fn programs_bind_to_well_formed_jobs()
    ensures one { (items : List Declaration) (given : List Setting) (tables : List Table)
        (image : Picture) (sides : Sides) (a b : Pipeline) → IsJobOf items given tables image sides a
        → IsJobOf items given tables image sides b → a ≡ b }
    ensures job { (items : List Declaration) (given : List Setting) (tables : List Table)
        (image : Picture) (sides : Sides) (job : Pipeline)
        (is : IsJobOf items given tables image sides job) → KeepsLimits items → AreSmall given
        → AreSmallTables tables → IsImage image → IsSides sides
        → IsInBounds (settings_for is.image image given) items → PlanesFit is.image image
        → ExtentsFit (settings_for is.image image given) is.image image → ShapesFit job
        → TilesFit job → IsJob job }
{}

/// The limits of a text are limits of its job: at most 64 stages, 64 parameters and 16 cases of a function.
pub fn bind_keeps_text_limits()
    ensures { (items : List Declaration) (given : List Setting) (tables : List Table)
        (image : Picture) (sides : Sides) (job : Pipeline) → KeepsLimits items
        → IsJobOf items given tables image sides job → IsSmall job }
{}
