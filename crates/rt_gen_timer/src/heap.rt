// The loops of the heap, as templates.

use crate::slots::{
    COUNT, EQUAL, HOLE, INSTANT, LESS, NUMBER, ONE, OTHER, OTHER_INSTANT, OTHER_NUMBER, OTHER_ROW,
    RIGHT, RIGHT_INSTANT, RIGHT_NUMBER, RIGHT_ROW, TWO, WORK,
};
use crate::template::{Column, Template};
use rt_ids::Op;

/// The message in hand goes up from the hole.
pub(crate) const SIFT_UP: [Template; 15] = [
    Template::JumpZero(HOLE, 15),
    Template::Calc(Op::Sub, OTHER, HOLE, ONE),
    Template::Calc(Op::Div, OTHER, OTHER, TWO),
    Template::LoadAt(OTHER_ROW, Column::Heap, OTHER),
    Template::LoadAt(OTHER_INSTANT, Column::Instants, OTHER_ROW),
    Template::LoadAt(OTHER_NUMBER, Column::Numbers, OTHER_ROW),
    Template::Calc(Op::Lt, LESS, INSTANT, OTHER_INSTANT),
    Template::Calc(Op::Eq, EQUAL, INSTANT, OTHER_INSTANT),
    Template::Calc(Op::Lt, WORK, NUMBER, OTHER_NUMBER),
    Template::Calc(Op::And, EQUAL, EQUAL, WORK),
    Template::Calc(Op::Or, LESS, LESS, EQUAL),
    Template::JumpZero(LESS, 15),
    Template::StoreAt(Column::Heap, HOLE, OTHER_ROW),
    Template::Copy(HOLE, OTHER),
    Template::Again,
];

/// The message in hand goes down from the hole.
pub(crate) const SIFT_DOWN: [Template; 31] = [
    Template::Calc(Op::Add, OTHER, HOLE, HOLE),
    Template::Calc(Op::Add, OTHER, OTHER, ONE),
    Template::Calc(Op::Lt, RIGHT, OTHER, COUNT),
    Template::JumpZero(RIGHT, 31),
    Template::Calc(Op::Add, RIGHT, OTHER, ONE),
    Template::Calc(Op::Lt, RIGHT, RIGHT, COUNT),
    Template::Calc(Op::Add, RIGHT, OTHER, RIGHT),
    Template::LoadAt(OTHER_ROW, Column::Heap, OTHER),
    Template::LoadAt(OTHER_INSTANT, Column::Instants, OTHER_ROW),
    Template::LoadAt(OTHER_NUMBER, Column::Numbers, OTHER_ROW),
    Template::LoadAt(RIGHT_ROW, Column::Heap, RIGHT),
    Template::LoadAt(RIGHT_INSTANT, Column::Instants, RIGHT_ROW),
    Template::LoadAt(RIGHT_NUMBER, Column::Numbers, RIGHT_ROW),
    Template::Calc(Op::Lt, LESS, RIGHT_INSTANT, OTHER_INSTANT),
    Template::Calc(Op::Eq, EQUAL, RIGHT_INSTANT, OTHER_INSTANT),
    Template::Calc(Op::Lt, WORK, RIGHT_NUMBER, OTHER_NUMBER),
    Template::Calc(Op::And, EQUAL, EQUAL, WORK),
    Template::Calc(Op::Or, LESS, LESS, EQUAL),
    Template::Calc(Op::Add, OTHER, OTHER, LESS),
    Template::LoadAt(OTHER_ROW, Column::Heap, OTHER),
    Template::LoadAt(OTHER_INSTANT, Column::Instants, OTHER_ROW),
    Template::LoadAt(OTHER_NUMBER, Column::Numbers, OTHER_ROW),
    Template::Calc(Op::Lt, LESS, OTHER_INSTANT, INSTANT),
    Template::Calc(Op::Eq, EQUAL, OTHER_INSTANT, INSTANT),
    Template::Calc(Op::Lt, WORK, OTHER_NUMBER, NUMBER),
    Template::Calc(Op::And, EQUAL, EQUAL, WORK),
    Template::Calc(Op::Or, LESS, LESS, EQUAL),
    Template::JumpZero(LESS, 31),
    Template::StoreAt(Column::Heap, HOLE, OTHER_ROW),
    Template::Copy(HOLE, OTHER),
    Template::Again,
];
