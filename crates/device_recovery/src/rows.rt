// The rows of an array in the order in which recovery goes over them: by rising number, then rising logger.
ghost use Rattle.std.specs.Prelude.{◌≡◌, ◌*◌, ◌/◌, ◌%◌, ◌<◌};

use array_shape::Shape;

/// The row of a transaction number at a logger.
#[derive(Clone, Copy)]
pub(crate) struct RowName {
    pub(crate) logger: u8,
    pub(crate) tid: u8,
}

/// How many rows there are.
pub(crate) fn row_count(shape: &Shape) -> u16
    ensures { result ≡ shape.now.loggers * shape.now.numbers }
{
    u16::from(shape.loggers) * u16::from(shape.numbers)
}

/// The `nth` row, counted from 0.
pub(crate) fn nth_row(shape: &Shape, nth: u16) -> RowName
    requires { nth < shape.now.loggers * shape.now.numbers }
    ensures logger { result.logger ≡ nth % shape.now.loggers }
    ensures tid { result.tid ≡ nth / shape.now.loggers }
    ensures one_logger { result.logger < shape.now.loggers }
    ensures one_number { result.tid < shape.now.numbers }
{
    let loggers = u16::from(shape.loggers);
    RowName {
        logger: (nth % loggers) as u8,
        tid: (nth / loggers) as u8,
    }
}
