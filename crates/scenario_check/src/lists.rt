//! The names of a scenario, in lists.
ghost use Rattle.std.specs.Prelude.{◌≡◌, [], ◌∷◌, ◌++◌, ℕ, List, map, IfOk, OnOk};
ghost use Rattle.std.specs.List.{flat_map};
ghost use Rattle.scenario_tree.specs.declared.tree.Declaration.{Declaration as AnyDeclaration};
ghost use Rattle.scenario_tree.specs.declared.tree.Function.{Function as AnyFunction};
ghost use Rattle.scenario_rules.specs.declared.declared.Declared.{Declared as AnyDeclared};
ghost use Rattle.scenario_rules.specs.Declarations.{declarations, function_as, given_by, named_declaration, named_function, object_entry, function_entry};
ghost use Rattle.name_table.specs.Tables.{Holds};

use gv_values::Name;
use name_table::Names;
use scenario_rules::{Declared, Mention, Named, Says};
use scenario_tree::{Declaration, Function, Items, Scenario};
use std::alloc::{AllocError, Global};

/// The names of the objects, added to a list.
pub(crate) fn add_objects(
    list: &mut Items<Named>,
    objects: &[Declaration],
) -> Result<(), AllocError>
    ensures { OnOk result (list.new ≡ list.old ++ map named_declaration objects.now) }
{
    for object in objects {
        list.push(Named {
            line: object.line,
            name: object.name,
        })?;
    }
    Ok(())
}

/// The names of the functions, added to a list.
pub(crate) fn add_functions(
    list: &mut Items<Named>,
    functions: &[Function],
) -> Result<(), AllocError>
    ensures { OnOk result (list.new ≡ list.old ++ map named_function functions.now) }
{
    for function in functions {
        list.push(Named {
            line: function.line,
            name: function.name,
        })?;
    }
    Ok(())
}

/// Names that stand on one line, added to a list.
pub(crate) fn add_names(
    list: &mut Items<Named>,
    line: u32,
    names: &[Name],
) -> Result<(), AllocError>
    ensures { OnOk result (list.new ≡ list.old ++ map (λ x. record { line = line; name = x }) names.now) }
{
    for name in names {
        list.push(Named { line, name: *name })?;
    }
    Ok(())
}

fn add_given(list: &mut Items<Named>, mention: &Mention) -> Result<(), AllocError>
    ensures { OnOk result (list.new ≡ list.old ++ given_by mention.now) }
{
    match mention.says {
        Says::Gives(name) => Ok(list.push(Named {
            line: mention.line,
            name,
        })?),
        _ => Ok(()),
    }
}

/// The names that are given a value, added to a list.
pub(crate) fn add_all_given(list: &mut Items<Named>, said: &[Mention]) -> Result<(), AllocError>
    ensures { OnOk result (list.new ≡ list.old ++ flat_map given_by said.now) }
{
    for mention in said {
        add_given(list, mention)?;
    }
    Ok(())
}

fn function_as(function: &Function) -> Declared
    ensures { result ≡ function_as function.now }
{
    if function.is_raw {
        Declared::RawBody
    } else {
        Declared::Function(function.parameters.len())
    }
}

fn declare_objects(
    alloc: Global,
    names: &mut Names<Declared>,
    objects: &[Declaration],
) -> Result<(), AllocError>
    ensures { (ds : List (List ℕ × AnyDeclared)) → Holds names.old ds → OnOk result (Holds names.new (ds ++ map object_entry objects.now)) }
{
    for object in objects {
        declare(alloc, names, &object.name, Declared::Object(object.object))?;
    }
    Ok(())
}

fn declare(
    alloc: Global,
    names: &mut Names<Declared>,
    name: &Name,
    declared: Declared,
) -> Result<(), AllocError>
    ensures { (ds : List (List ℕ × AnyDeclared)) → Holds names.old ds → OnOk result (Holds names.new (ds ++ (name.now, declared) ∷ [])) }
{
    names.give(alloc, name.bytes(), declared)?;
    Ok(())
}

fn declare_functions(
    alloc: Global,
    names: &mut Names<Declared>,
    functions: &[Function],
) -> Result<(), AllocError>
    ensures { (ds : List (List ℕ × AnyDeclared)) → Holds names.old ds → OnOk result (Holds names.new (ds ++ map function_entry functions.now)) }
{
    for function in functions {
        declare(alloc, names, &function.name, function_as(function))?;
    }
    Ok(())
}

/// What each name of the scenario is declared as.
pub(crate) fn declarations(
    alloc: Global,
    scenario: &Scenario,
) -> Result<Names<Declared>, AllocError>
    ensures { IfOk result (λ names. Holds names (declarations scenario.now)) }
{
    let mut names = Names::new(alloc);
    declare_objects(alloc, &mut names, scenario.objects.as_slice())?;
    declare_functions(alloc, &mut names, scenario.functions.as_slice())?;
    Ok(names)
}
