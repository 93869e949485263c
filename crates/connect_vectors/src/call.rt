use crate::input::{first_word, unreadable};
use crate::{arrow, contents, heads, ids, messages, shown, texts, web, windows, wire, written};
use std::alloc::{AllocError, Global};

/// The answer to a call, a line without its LF. Bytes are hexadecimal digits, and `-` none.
pub fn answer(alloc: Global, line: &str) -> Result<String, AllocError> {
    let (name, rest) = first_word(line);
    match name {
        "wire" => wire::answer(alloc, rest),
        "message" => messages::answer(alloc, rest),
        "spell" => messages::spelling(alloc, rest),
        "show" => shown::answer(alloc, rest),
        "path" => messages::method_at(alloc, rest),
        "arrow" => arrow::answer(alloc, rest),
        "json" => texts::schema(alloc, rest),
        "value" => texts::value(alloc, rest),
        "id" => ids::answer(alloc, rest),
        "put_id" => ids::put(alloc, rest),
        "cut" => windows::cutting(alloc, rest),
        "window" => windows::window(alloc, rest),
        _ => of_the_web(alloc, name, rest),
    }
}

fn of_the_web(alloc: Global, name: &str, rest: &str) -> Result<String, AllocError> {
    match name {
        "request" => web::request(alloc, rest),
        "response" => web::response(alloc, rest),
        "request_head" => heads::request(alloc, rest),
        "response_head" => heads::response(alloc, rest),
        "head" => heads::reader(alloc, rest),
        "head_end" => heads::end(alloc, rest),
        "chunk_size" => heads::chunk(alloc, rest),
        "decimal" => heads::number(alloc, rest),
        "body" => contents::body(alloc, rest),
        "frames" => contents::frames(alloc, rest),
        "content" => contents::content(alloc, rest),
        "trailers" => written::trailers_read(alloc, rest),
        _ => to_the_web(alloc, name, rest),
    }
}

fn to_the_web(alloc: Global, name: &str, rest: &str) -> Result<String, AllocError> {
    match name {
        "put_request" => written::request(alloc, rest),
        "put_head" => written::head(alloc),
        "put_message" => written::message(alloc, rest),
        "put_end" => written::end(alloc, rest),
        "put_trailers" => written::trailers_put(alloc, rest),
        "refused" => written::refused(alloc, rest),
        "answer_of" => written::answer(alloc, rest),
        _ => unreadable(alloc),
    }
}
