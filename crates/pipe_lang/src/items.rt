#![tactic(auto)]
//! Items, and the programs that are made of them.

ghost use Rattle.std.specs.Prelude.{◌≡◌, ◌<◌, ◌≤◌, length, OnOk};
ghost use Rattle.std.specs.List.{list_any};
ghost use Rattle.std.specs.Option.{option_map};
ghost use Rattle.pipe_tree.specs.Grammar.{is_output};
ghost use Rattle.pipe_tree.specs.Limits.{most_levels};
ghost use Rattle.pipe_tree.specs.Lookahead.{item_at};
ghost use Rattle.pipe_tree.specs.Tree.{view, cases_of, branches, function_of, accumulator_of, declaration, declarations};
ghost use Rattle.pipe_tree.specs.Reading as reading;
ghost use Rattle.pipe_tree.specs.Reading.{program_of};
ghost use Rattle.pipe_term_parser.specs.Answers.{at, Reads};

use pipe_term_parser::{ParseError, TermParser};
use pipe_tokens::{Keyword, Punct, Token};
use pipe_tree::{
    Accum, Case, Cases, Condition, Expr, Func, Image, Item, ItemStart, MAX_LEVELS, Names, Output,
    Param, Role, Table, Test, Variable,
};
use std::alloc::Global;

#[tactic(auto, unfolding(pipe_tree::specs::Reading::a_param))]
fn parse_param_item(parser: &mut TermParser<'_>) -> Result<Param, ParseError>
    ensures exact { Reads (λ p. (p, at parser.new)) result (reading.a_param (at parser.old)) }
    ensures shorter { length parser.new.rest.now ≤ length parser.old.rest.now }
    ensures passes { OnOk result (length parser.new.rest.now < length parser.old.rest.now) }
{
    parser.expect_keyword(Keyword::Param, Role::Plain)?;
    let name = parser.parse_name(Role::Param)?;
    parser.expect_punct(Punct::Semicolon, Role::Plain)?;
    Ok(Param { name })
}

#[tactic(auto, unfolding(pipe_tree::specs::Reading::a_table))]
fn parse_table_item(parser: &mut TermParser<'_>) -> Result<Table, ParseError>
    ensures exact { Reads (λ t. (t, at parser.new)) result (reading.a_table (at parser.old)) }
    ensures shorter { length parser.new.rest.now ≤ length parser.old.rest.now }
    ensures passes { OnOk result (length parser.new.rest.now < length parser.old.rest.now) }
{
    parser.expect_keyword(Keyword::Table, Role::Plain)?;
    let name = parser.parse_name(Role::Table)?;
    let span = parser.parse_affine_span()?;
    Ok(parser.expect_punct_and_return_value(Table { name, span }, Punct::Semicolon)?)
}

// One name, or three.
#[tactic(auto, unfolding(pipe_tree::specs::Reading::names))]
fn parse_one_or_three_names(parser: &mut TermParser<'_>, role: Role) -> Result<Names, ParseError>
    ensures exact { Reads (λ ns. (ns, at parser.new)) result (reading.names role (at parser.old)) }
    ensures shorter { length parser.new.rest.now ≤ length parser.old.rest.now }
{
    let first = parser.parse_name(role)?;
    if !parser.is_punct_ahead(Punct::Comma) {
        return Ok(Names::One(first));
    }
    parser.expect_punct(Punct::Comma, Role::Plain)?;
    let second = parser.parse_name(role)?;
    parser.expect_punct(Punct::Comma, Role::Plain)?;
    let third = parser.parse_name(role)?;
    Ok(Names::Three(first, second, third))
}

#[tactic(auto, unfolding(pipe_tree::specs::Reading::an_image))]
fn parse_image_item(parser: &mut TermParser<'_>) -> Result<Image, ParseError>
    ensures exact { Reads (λ i. (i, at parser.new)) result (reading.an_image (at parser.old)) }
    ensures shorter { length parser.new.rest.now ≤ length parser.old.rest.now }
{
    parser.expect_keyword(Keyword::Image, Role::Plain)?;
    let names = parse_one_or_three_names(parser, Role::Stage)?;
    parser.expect_punct(Punct::OpenRound, Role::Plain)?;
    let rows = parser.parse_affine()?;
    parser.expect_punct(Punct::Comma, Role::Plain)?;
    let columns = parser.parse_affine()?;
    parser.expect_punct(Punct::CloseRound, Role::Plain)?;
    parser.expect_punct(Punct::Semicolon, Role::Plain)?;
    Ok(Image {
        names,
        rows,
        columns,
    })
}

// The variables of rows and columns.
#[tactic(auto, unfolding(pipe_tree::specs::Reading::variables))]
fn parse_variable_pair(parser: &mut TermParser<'_>) -> Result<(Variable, Variable), ParseError>
    ensures exact { Reads (λ vs. (vs, at parser.new)) result (reading.variables (at parser.old)) }
    ensures shorter { length parser.new.rest.now ≤ length parser.old.rest.now }
{
    parser.expect_punct(Punct::OpenRound, Role::Plain)?;
    let row = parser.parse_variable_with_span()?;
    parser.expect_punct(Punct::Comma, Role::Plain)?;
    let column = parser.parse_variable_with_span()?;
    parser.expect_punct(Punct::CloseRound, Role::Plain)?;
    Ok((row, column))
}

#[tactic(auto, unfolding(pipe_tree::specs::Reading::a_test))]
fn parse_test(parser: &mut TermParser<'_>) -> Result<Test, ParseError>
    ensures exact { Reads (λ t. (t, at parser.new)) result (reading.a_test (at parser.old)) }
    ensures shorter { length parser.new.rest.now ≤ length parser.old.rest.now }
{
    let name = parser.parse_name(Role::Plain)?;
    if !parser.is_punct_ahead(Punct::Percent) {
        let relation = parser.parse_relation()?;
        return Ok(Test::Compare(name, relation, parser.parse_affine()?));
    }
    parser.expect_punct(Punct::Percent, Role::Plain)?;
    let modulus = parser.parse_unsigned_number(Role::Plain)?;
    parser.expect_punct(Punct::Equals, Role::Plain)?;
    let remainder = parser.parse_unsigned_number(Role::Plain)?;
    Ok(Test::Remainder(name, modulus, remainder))
}

#[tactic(auto, using(crate::proofs::ItemUnrolled::condition_unroll), unfolding(pipe_tree::specs::Reading::condition))]
fn parse_condition(parser: &mut TermParser<'_>) -> Result<Condition, ParseError>
    ensures exact { Reads (λ c. (c, at parser.new)) result (reading.condition (at parser.old)) }
    ensures shorter { length parser.new.rest.now ≤ length parser.old.rest.now }
{
    let first = parse_test(parser)?;
    let mut tests = Vec::new(parser.alloc);
    tests.push(first)?;
    while parser.is_keyword_ahead(Keyword::And) {
        parser.expect_keyword(Keyword::And, Role::Plain)?;
        let test = parse_test(parser)?;
        tests.push(test)?;
    }
    Ok(Condition::new(tests))
}

// `: VALUE;`
#[tactic(auto, unfolding(pipe_tree::specs::Reading::value))]
fn parse_value_after_colon(parser: &mut TermParser<'_>) -> Result<Expr, ParseError>
    ensures exact { Reads (λ e. (view e, at parser.new)) result
        (reading.value most_levels (at parser.old)) }
    ensures shorter { length parser.new.rest.now ≤ length parser.old.rest.now }
{
    parser.expect_punct(Punct::Colon, Role::Plain)?;
    let value = parser.parse_expression(MAX_LEVELS)?;
    Ok(parser.expect_punct_and_return_value(value, Punct::Semicolon)?)
}

#[tactic(auto, using(crate::proofs::ItemUnrolled::next_case), unfolding(pipe_tree::specs::Reading::cases_at))]
fn parse_cases_before_else(parser: &mut TermParser<'_>) -> Result<Cases, ParseError>
    ensures exact { Reads (λ cs. (branches (cases_of cs), at parser.new)) result
        (reading.cases_at most_levels (at parser.old)) }
    ensures shorter { length parser.new.rest.now ≤ length parser.old.rest.now }
{
    let mut cases = Vec::new(parser.alloc);
    while parser.is_keyword_ahead(Keyword::Case) {
        parser.expect_keyword(Keyword::Case, Role::Case)?;
        let condition = parse_condition(parser)?;
        let value = parse_value_after_colon(parser)?;
        cases.push(Case { condition, value })?;
    }
    Ok(Cases::new(cases))
}

#[tactic(auto, unfolding(pipe_tree::specs::Reading::otherwise))]
fn parse_else_value_if_any(parser: &mut TermParser<'_>) -> Result<Option<Expr>, ParseError>
    ensures exact { Reads (λ e. (option_map view e, at parser.new)) result
        (reading.otherwise most_levels (at parser.old)) }
    ensures shorter { length parser.new.rest.now ≤ length parser.old.rest.now }
{
    if !parser.is_keyword_ahead(Keyword::Else) {
        return Ok(None);
    }
    parser.expect_keyword(Keyword::Else, Role::Plain)?;
    Ok(Some(parse_value_after_colon(parser)?))
}

#[tactic(auto, unfolding(pipe_tree::specs::Reading::a_function))]
fn parse_func_item(parser: &mut TermParser<'_>) -> Result<Func, ParseError>
    ensures exact { Reads (λ f. (function_of f, at parser.new)) result
        (reading.a_function most_levels (at parser.old)) }
    ensures shorter { length parser.new.rest.now ≤ length parser.old.rest.now }
    ensures passes { OnOk result (length parser.new.rest.now < length parser.old.rest.now) }
{
    parser.expect_keyword(Keyword::Func, Role::Function)?;
    let name = parser.parse_name(Role::Stage)?;
    let (row, column) = parse_variable_pair(parser)?;
    parser.expect_punct(Punct::OpenCurly, Role::Plain)?;
    let cases = parse_cases_before_else(parser)?;
    let otherwise = parse_else_value_if_any(parser)?;
    let func = Func {
        name,
        row,
        column,
        cases,
        otherwise,
    };
    Ok(parser.expect_punct_and_return_value(func, Punct::CloseCurly)?)
}

#[tactic(auto, unfolding(pipe_tree::specs::Reading::an_accumulator))]
fn parse_accum_item(parser: &mut TermParser<'_>) -> Result<Accum, ParseError>
    ensures exact { Reads (λ a. (accumulator_of a, at parser.new)) result
        (reading.an_accumulator most_levels (at parser.old)) }
    ensures shorter { length parser.new.rest.now ≤ length parser.old.rest.now }
    ensures passes { OnOk result (length parser.new.rest.now < length parser.old.rest.now) }
{
    parser.expect_keyword(Keyword::Accum, Role::Plain)?;
    let name = parser.parse_name(Role::Stage)?;
    let bins = parser.parse_affine_span()?;
    parser.expect_keyword(Keyword::Over, Role::Plain)?;
    let (row, column) = parse_variable_pair(parser)?;
    let fold = parser.parse_reduction_op()?;
    let value = parser.parse_expression(MAX_LEVELS)?;
    parser.expect_keyword(Keyword::At, Role::Plain)?;
    let bin = parser.parse_expression(MAX_LEVELS)?;
    let accum = Accum {
        name,
        bins,
        row,
        column,
        fold,
        value,
        bin,
    };
    Ok(parser.expect_punct_and_return_value(accum, Punct::Semicolon)?)
}

#[tactic(auto, unfolding(pipe_tree::specs::Reading::an_output))]
fn parse_output_item(parser: &mut TermParser<'_>) -> Result<Output, ParseError>
    ensures exact { Reads (λ o. (o, at parser.new)) result (reading.an_output (at parser.old)) }
    ensures shorter { length parser.new.rest.now ≤ length parser.old.rest.now }
    ensures passes { OnOk result (length parser.new.rest.now < length parser.old.rest.now) }
{
    parser.expect_keyword(Keyword::Output, Role::Plain)?;
    let names = parse_one_or_three_names(parser, Role::Plain)?;
    parser.expect_keyword(Keyword::Max, Role::Plain)?;
    let max = parser.parse_unsigned_number(Role::Plain)?;
    parser.expect_punct(Punct::Semicolon, Role::Plain)?;
    Ok(Output { names, max })
}

// The item that the token ahead begins.
fn classify_item_start(token: Option<Token>) -> ItemStart
    ensures { result ≡ item_at token }
{
    match token {
        Some(Token::Keyword(Keyword::Param)) => ItemStart::Param,
        Some(Token::Keyword(Keyword::Table)) => ItemStart::Table,
        Some(Token::Keyword(Keyword::Func)) => ItemStart::Func,
        Some(Token::Keyword(Keyword::Accum)) => ItemStart::Accum,
        Some(Token::Keyword(Keyword::Output)) => ItemStart::Output,
        _ => ItemStart::Nothing,
    }
}

// The item ahead, which is not an image.
#[tactic(auto, unfolding(pipe_tree::specs::Reading::item))]
fn parse_item_other_than_image(parser: &mut TermParser<'_>) -> Result<Item, ParseError>
    ensures exact { Reads (λ i. (declaration i, at parser.new)) result
        (reading.item most_levels (at parser.old)) }
    ensures shorter { length parser.new.rest.now ≤ length parser.old.rest.now }
    ensures passes { OnOk result (length parser.new.rest.now < length parser.old.rest.now) }
{
    match classify_item_start(parser.peek_token()) {
        ItemStart::Param => Ok(Item::Param(parse_param_item(parser)?)),
        ItemStart::Table => Ok(Item::Table(parse_table_item(parser)?)),
        ItemStart::Func => Ok(Item::Func(parse_func_item(parser)?)),
        ItemStart::Accum => Ok(Item::Accum(parse_accum_item(parser)?)),
        ItemStart::Output => Ok(Item::Output(parse_output_item(parser)?)),
        ItemStart::Nothing => Err(parser.build_unexpected_token_error()),
    }
}

// Adds the items up to an image, a second output or the end after those that were read.
#[tactic(auto, using(crate::proofs::ItemUnrolled::next_item), unfolding(pipe_tree::specs::Reading::others))]
fn parse_more_items_until_image_or_end(
    parser: &mut TermParser<'_>,
    items: &mut Vec<Item>,
) -> Result<(), ParseError>
    ensures exact { Reads (λ _. (declarations items.new.items, at parser.new)) result
        (reading.others most_levels (declarations items.old.items) (at parser.old)) }
    ensures shorter { length parser.new.rest.now ≤ length parser.old.rest.now }
{
    while can_token_begin_next_non_image_item(parser.peek_token(), items) {
        let item = parse_item_other_than_image(parser)?;
        items.push(item)?;
    }
    Ok(())
}

// Exactly one image is among the items.
#[tactic(auto, unfolding(pipe_tree::specs::Reading::program_at))]
fn parse_all_items(parser: &mut TermParser<'_>) -> Result<Vec<Item>, ParseError>
    ensures exact { Reads (λ items. (declarations items.items, at parser.new)) result
        (reading.whole most_levels (at parser.old)) }
    ensures shorter { length parser.new.rest.now ≤ length parser.old.rest.now }
{
    let mut items = Vec::new(parser.alloc);
    parse_more_items_until_image_or_end(parser, &mut items)?;
    let image = parse_image_item(parser)?;
    items.push(Item::Image(image))?;
    parse_more_items_until_image_or_end(parser, &mut items)?;
    match parser.peek_token() {
        Some(_) => Err(parser.build_unexpected_token_error()),
        None => Ok(items),
    }
}

fn has_output_item(items: &[Item]) -> bool
    ensures { result ≡ list_any (λ item. is_output (declaration item)) items.now }
{
    items.iter().any(|item| matches!(item, Item::Output(_)))
}

// Whether the token begins one more item that is not an image.
#[tactic(auto, using(crate::proofs::ItemUnrolled::any_declaration))]
fn can_token_begin_next_non_image_item(token: Option<Token>, items: &[Item]) -> bool
    ensures { result ≡ reading.goes_on (declarations items.now) token }
{
    match classify_item_start(token) {
        ItemStart::Param | ItemStart::Table | ItemStart::Func | ItemStart::Accum => true,
        ItemStart::Output => !has_output_item(items),
        ItemStart::Nothing => false,
    }
}

/// The items of all of the tokens.
pub(crate) fn parse_program_items_from_tokens(
    alloc: Global,
    tokens: &[Token],
) -> Result<Vec<Item>, ParseError>
    ensures { Reads (λ items. declarations items.items) result (program_of tokens.now) }
{
    parse_all_items(&mut TermParser::new(alloc, tokens))
}
