// How large the memory is that the program has, all of it on its stack; the input and the output buffer have their sizes beside them.
use crate::block::{BLOCK, ORDERS};
use policy::serve::{ANSWER_WIDTH, REQUEST_WIDTH};
use rules::{InnerTokens, InnerVertices, Order, OuterTokens, OuterVertices, Resources};

pub const INNER_VERTICES: usize = InnerVertices::LIMIT as usize * InnerVertices::WIDTH;

pub const INNER_TOKENS: usize = InnerTokens::LIMIT as usize * InnerTokens::WIDTH;

pub const OUTER_VERTICES: usize = OuterVertices::LIMIT as usize * OuterVertices::WIDTH;

pub const OUTER_TOKENS: usize = OuterTokens::LIMIT as usize * OuterTokens::WIDTH;

pub const RESOURCES: usize = Resources::LIMIT as usize * Resources::WIDTH;

// The rows of a block's requests, of their answers, and of the orders of all.
pub const REQUEST_ROWS: usize = BLOCK * REQUEST_WIDTH;

pub const ANSWER_ROWS: usize = BLOCK * ANSWER_WIDTH;

pub const ORDER_ROWS: usize = ORDERS * Order::WIDTH;
